//! The tags that a part is written as.

ghost use Rattle.std.specs.Prelude.{◌≡◌, ◌≢◌, ◌==◌, ℕ, ◌+◌, ◌/◌, ◌<◌, ◌≤◌, [], ◌∷◌, ◌++◌, length, map, All, IfOk, OnOk};
ghost use Rattle.std.specs.List.{list_all};
ghost use Rattle.lfs_tag.specs.EditData.{data_bytes};
ghost use Rattle.lfs_tag.specs.Writing.{item_of, items};
ghost use Rattle.lfs_meta.specs.BodyHeld.{body_held};
ghost use Rattle.lfs_meta.specs.Fits.{EntryFits};
ghost use Rattle.lfs_meta.specs.Body.{body_bytes, words};
ghost use Rattle.lfs_pair.specs.Spelling.{attribute_item, body_item, body_kind, delta_tags, entries_tags, entry_tags, name_kind, part_tags, tag_item, tail_tags};
ghost use Rattle.lfs_pair.specs.Writing.{stored_part};
ghost use Rattle.lfs_meta.specs.Runs.{most_entries};

use byteorder::{ByteOrder, LittleEndian};
use lfs_meta::{Attribute, Body, Entry, Kind, Tail};
use lfs_tag::{Edit, EditData, NO_ID, Tag};
use std::alloc::{AllocError, Global};

/// The type of an attribute's tag of kind 0.
pub(crate) const ATTRIBUTE: u16 = 0x300;
/// The type of a tail's tag, where the thread goes on to another directory.
pub(crate) const SOFT_TAIL: u16 = 0x600;
/// The type of a tail's tag, where the thread goes on in the same directory.
pub(crate) const HARD_TAIL: u16 = 0x601;
/// The type of a delta's tag.
const DELTA: u16 = 0x7ff;

/// Two words, low bytes first.
pub(crate) fn words<'a>(first: u32, second: u32) -> EditData<'a>
    ensures { data_bytes result ≡ words first second }
{
    let mut bytes = [0; 8];
    LittleEndian::write_u32_into(&[first, second], &mut bytes);
    EditData::Words(bytes)
}

/// A tag of this type and id, with its data.
pub(crate) fn edit<'a>(kind: u16, id: u16, content: EditData<'a>) -> Edit<'a>
    requires kind { kind < 2048 }
    requires main { kind / 256 ≢ 5 }
    requires id { id < 1024 }
    requires bytes { length (data_bytes content) < 1023 }
    ensures { item_of result ≡ tag_item kind id (data_bytes content.entry) }
{
    let len = content.as_bytes().len() as u16;
    Edit {
        tag: Tag { kind, id, len },
        content,
    }
}

/// The type of a name's tag.
pub(crate) fn name_kind(kind: Kind) -> u16
    ensures { result ≡ name_kind kind }
{
    match kind {
        Kind::File => 0x001,
        Kind::Dir => 0x002,
        Kind::Super => 0x0ff,
    }
}

/// The type of a struct's tag.
fn body_kind(body: &Body) -> u16
    ensures { result ≡ body_kind (body_held body.now) }
{
    match body {
        Body::Inline(_) => 0x201,
        Body::Chain { .. } => 0x202,
        Body::Directory(..) => 0x200,
    }
}

/// The data of a struct's tag.
fn body_data(body: &Body) -> EditData<'_>
    ensures { data_bytes result ≡ body_bytes (body_held body.now) }
{
    match body {
        Body::Inline(bytes) => EditData::Bytes(bytes),
        Body::Chain { head, size } => words(*head, *size),
        Body::Directory(first, second) => words(*first, *second),
    }
}

/// The tag of an entry's struct.
pub(crate) fn body_edit<'a>(id: u16, entry: &'a Entry) -> Edit<'a>
    requires { id < 1023 }
    ensures { item_of result ≡ body_item id entry.now }
{
    edit(body_kind(&entry.body), id, body_data(&entry.body))
}

/// The tag of an attribute.
pub(crate) fn attribute_edit<'a>(id: u16, attribute: &'a Attribute) -> Edit<'a>
    requires { id < 1023 }
    ensures { item_of result ≡ attribute_item id attribute.now }
{
    let kind = ATTRIBUTE + u16::from(attribute.kind);
    edit(kind, id, EditData::Bytes(&attribute.value))
}

/// The tag of a delta.
pub(crate) fn delta_edit<'a>(delta: &'a [u8; 12]) -> Edit<'a>
    ensures { item_of result ≡ tag_item 0x7ff 0x3ff delta.now }
{
    edit(DELTA, NO_ID, EditData::Bytes(delta))
}

/// Adds an entry's attributes.
pub(crate) fn push_attributes<'a>(
    edits: &mut Vec<Edit<'a>>,
    id: u16,
    attributes: &'a [Attribute],
) -> Result<(), AllocError>
    requires { id < 1023 }
    ensures { OnOk result (items edits.new.items ≡ items edits.old.items ++ map (attribute_item id) attributes.now) }
{
    for attribute in attributes {
        edits.push(attribute_edit(id, attribute))?;
    }
    Ok(())
}

/// Adds an entry.
pub(crate) fn push_entry<'a>(
    edits: &mut Vec<Edit<'a>>,
    id: u16,
    entry: &'a Entry,
) -> Result<(), AllocError>
    requires { id < 1023 }
    ensures pushed { OnOk result (items edits.new.items ≡ items edits.old.items ++ entry_tags id entry.now) }
    ensures fits { EntryFits entry.now }
{
    edits.push(edit(name_kind(entry.kind), id, EditData::Bytes(&entry.name)))?;
    edits.push(body_edit(id, entry))?;
    push_attributes(edits, id, &entry.attributes)
}

/// Adds entries.
fn push_entries<'a>(edits: &mut Vec<Edit<'a>>, entries: &'a [Entry]) -> Result<(), AllocError>
    requires { length entries.now ≤ most_entries }
    ensures pushed { OnOk result (items edits.new.items ≡ items edits.old.items ++ entries_tags 0 entries.now) }
    ensures fits { OnOk result (All EntryFits entries.now) }
{
    for (id, entry) in entries.iter().enumerate() {
        push_entry(edits, id as u16, entry)?;
    }
    Ok(())
}

/// Adds a tail.
fn push_tail(edits: &mut Vec<Edit<'_>>, tail: Tail) -> Result<(), AllocError>
    ensures { OnOk result (items edits.new.items ≡ items edits.old.items ++ tail_tags tail) }
{
    match tail {
        Tail::End => {}
        Tail::Soft(first, second) => edits.push(edit(SOFT_TAIL, NO_ID, words(first, second)))?,
        Tail::Hard(first, second) => edits.push(edit(HARD_TAIL, NO_ID, words(first, second)))?,
    }
    Ok(())
}

/// Whether each byte is zero.
pub(crate) fn is_zero(bytes: &[u8]) -> bool
    ensures { result ≡ list_all (λ b. b == 0) bytes.now }
{
    bytes.iter().all(|byte| *byte == 0)
}

/// Adds a delta.
fn push_delta<'a>(edits: &mut Vec<Edit<'a>>, delta: &'a [u8; 12]) -> Result<(), AllocError>
    ensures { OnOk result (items edits.new.items ≡ items edits.old.items ++ delta_tags delta.now) }
{
    if is_zero(delta) {
        return Ok(());
    }
    edits.push(delta_edit(delta))?;
    Ok(())
}

/// The tags that a part is written as.
pub(crate) fn part_edits<'a>(
    alloc: Global,
    entries: &'a [Entry],
    tail: Tail,
    delta: &'a [u8; 12],
) -> Result<Vec<Edit<'a>>, AllocError>
    requires { length entries.now ≤ most_entries }
    ensures tags { IfOk result (λ edits. items edits.items ≡ part_tags (stored_part entries.now tail delta.now)) }
    ensures fits { OnOk result (All EntryFits entries.now) }
{
    let mut edits = Vec::new(alloc);
    push_entries(&mut edits, entries)?;
    push_tail(&mut edits, tail)?;
    push_delta(&mut edits, delta)?;
    Ok(edits)
}
