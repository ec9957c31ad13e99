//! What a metadata pair holds, as tags leave it.

ghost use Rattle.std.specs.Prelude.{◌≡◌, ◌≢◌, ◌≤◌, ◌<◌, false, length, OnOk};
ghost use Rattle.lfs_tag.specs.Tag.{word_of, data_len};
ghost use Rattle.lfs_tag.specs.Tags.{item_with};
ghost use Rattle.lfs_meta.specs.Action.{is_bad};
ghost use Rattle.lfs_meta.specs.Replay.{acted, at_entry, attributed_by, embodied_by, kind_named, named_by, up_to};

use crate::action::Action;
use crate::attribute_ref::AttributeRef;
use crate::attributes::{remove, set};
use crate::body_ref::body_named;
use crate::entry_draft::EntryDraft;
use crate::kind::Kind;
use crate::tail::{Tail, tail_named};
use lfs_block::MountFault;
use lfs_tag::{DELETED, Tag};
use std::alloc::{AllocError, Global};
use std::marker::Model;

/// What a metadata pair holds, as tags leave it: entries that may not be complete, how the thread goes on, and the pair's
/// share of the global state. What it holds is borrowed from a block.
///
/// Source: SPEC.md, "Metadata types".
#[derive(Drop)]
pub(crate) struct PartDraft<'a> {
    /// The entries, by id.
    pub(crate) entries: Vec<EntryDraft<'a>>,
    /// How the thread goes on.
    pub(crate) tail: Tail,
    /// The pair's share of the global state.
    pub(crate) delta: [u8; 12],
}

impl<'a> Model for PartDraft<'a> {
    ghost use Rattle.lfs_meta.specs.Part.{RawPart};

    ghost Value = { RawPart };

    ghost view = { λ p. record { entries = p.entries.items; tail = p.tail; delta = p.delta } };
}

impl<'a> PartDraft<'a> {
    ghost use Rattle.std.specs.Prelude.{◌≡◌, length, IfErr, OnOk};
    ghost use Rattle.lfs_tag.specs.Tag.{word_of, data_len};
    ghost use Rattle.lfs_tag.specs.Tags.{item_with};
    ghost use Rattle.lfs_meta.specs.Part.{empty_part};
    ghost use Rattle.lfs_meta.specs.Replay.{acted, step};
    ghost use Rattle.lfs_meta.specs.Step.{StepCause};

    /// What a pair holds before its first tag.
    #[tactic(auto, unfolding(crate::specs::Part::empty_part))]
    pub(crate) fn empty(alloc: Global) -> Self
        ensures { result ≡ empty_part }
    {
        PartDraft {
            entries: Vec::new(alloc),
            tail: Tail::End,
            delta: [0; 12],
        }
    }

    /// One more tag with its data: `UnknownTag` where its type isn't known, else `BadTag` where its id or its length is
    /// refused. After a refusal the part is of no use.
    pub(crate) fn apply(
        &mut self,
        alloc: Global,
        tag: Tag,
        bytes: &'a [u8],
    ) -> Result<(), MountFault>
        requires { length bytes.now ≡ data_len (word_of tag) }
        ensures applied { OnOk result (step self.old (item_with tag bytes.now) ≡ Some self.new) }
        ensures refused { IfErr result (λ fault. StepCause fault self.old (item_with tag bytes.now)) }
    {
        let action = Action::of(tag.kind).ok_or(MountFault::UnknownTag)?;
        if action.is_bad(tag, bytes, self.entries.len()) {
            return Err(MountFault::BadTag);
        }
        act(self, alloc, action, tag, bytes)?;
        Ok(())
    }
}

/// Adds blank entries up to an id.
fn grow(entries: &mut Vec<EntryDraft<'_>>, alloc: Global, id: usize) -> Result<(), AllocError>
    ensures { OnOk result (entries.new.items ≡ up_to id entries.old.items) }
{
    'grow: while entries.len() <= id {
        entries.push(EntryDraft::blank(alloc))?;
    }
    Ok(())
}

/// The kind that a name's type is.
fn kind_named(kind: u16) -> Kind
    ensures { result ≡ kind_named kind }
{
    match kind {
        0x001 => Kind::File,
        0x002 => Kind::Dir,
        _ => Kind::Super,
    }
}

/// Sets or takes out an attribute of an entry.
fn set_or_remove<'a>(
    entry: &mut EntryDraft<'a>,
    tag: Tag,
    bytes: &'a [u8],
) -> Result<(), AllocError>
    ensures { OnOk result (entry.new ≡ attributed_by (item_with tag bytes.now) entry.old) }
{
    let kind = tag.chunk() as u8;
    if tag.len == DELETED {
        remove(&mut entry.attributes, kind);
        return Ok(());
    }
    set(&mut entry.attributes, AttributeRef { kind, value: bytes })
}

/// Names the entry at the tag's id.
fn set_name<'a>(
    entries: &mut Vec<EntryDraft<'a>>,
    alloc: Global,
    tag: Tag,
    bytes: &'a [u8],
) -> Result<(), AllocError>
    ensures { let item = item_with tag bytes.now in
        OnOk result (entries.new.items ≡ at_entry tag.id (named_by item) (up_to tag.id entries.old.items)) }
{
    let id = usize::from(tag.id);
    grow(entries, alloc, id)?;
    let entry = &mut entries[id];
    entry.name = Some((kind_named(tag.kind), bytes));
    Ok(())
}

/// Gives the entry at the tag's id a struct.
fn set_body<'a>(entries: &mut [EntryDraft<'a>], tag: Tag, bytes: &'a [u8])
    requires there { tag.id < length entries.old }
    requires words { tag.kind ≢ 0x201 → 8 ≤ length bytes.now }
    ensures { entries.new ≡ at_entry tag.id (embodied_by (item_with tag bytes.now)) entries.old }
{
    let entry = &mut entries[usize::from(tag.id)];
    entry.body = Some(body_named(tag.kind, bytes));
}

/// Sets or takes out an attribute of the entry at the tag's id.
fn set_attribute_at<'a>(
    entries: &mut [EntryDraft<'a>],
    tag: Tag,
    bytes: &'a [u8],
) -> Result<(), AllocError>
    requires { tag.id < length entries.old }
    ensures { OnOk result (entries.new ≡ at_entry tag.id (attributed_by (item_with tag bytes.now)) entries.old) }
{
    let entry = &mut entries[usize::from(tag.id)];
    set_or_remove(entry, tag, bytes)
}

/// What a tag that isn't refused does to the entries, the tail or the delta.
#[tactic(auto, unfolding(crate::specs::Action::is_bad, crate::specs::Replay::acted))]
fn act<'a>(
    part: &mut PartDraft<'a>,
    alloc: Global,
    action: Action,
    tag: Tag,
    bytes: &'a [u8],
) -> Result<(), AllocError>
    requires data { length bytes.now ≡ data_len (word_of tag) }
    requires good { is_bad action (item_with tag bytes.now) (length part.old.entries) ≡ false }
    ensures { OnOk result (part.new ≡ acted action (item_with tag bytes.now) part.old) }
{
    match action {
        Action::Create => part
            .entries
            .insert(usize::from(tag.id), EntryDraft::blank(alloc))?,
        Action::Delete => {
            let _gone = part.entries.remove(usize::from(tag.id));
        }
        Action::SetName => set_name(&mut part.entries, alloc, tag, bytes)?,
        Action::SetBody => set_body(&mut part.entries, tag, bytes),
        Action::SetAttribute => set_attribute_at(&mut part.entries, tag, bytes)?,
        Action::SetTail => part.tail = tail_named(tag.kind, bytes),
        Action::SetDelta => part.delta.copy_from_slice(bytes),
    }
    Ok(())
}
