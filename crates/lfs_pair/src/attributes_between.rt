//! The tags between two lists of attributes.

ghost use Rattle.std.specs.Prelude.{◌≡◌, ◌≢◌, ◌<◌, ◌∷◌, ◌++◌, length, nat_lt, HoldsAt, IfOk, OnOk};
ghost use Rattle.std.specs.Bool.{OnFalse, OnTrue};
ghost use Rattle.std.specs.List.{prefix_len};
ghost use Rattle.lfs_tag.specs.Writing.{items};
ghost use Rattle.lfs_meta.specs.Attribute.{Attributes};
ghost use Rattle.lfs_pair.specs.Difference.{attributes_between, is_forced, value_tags};

use crate::change_edits::gone_edit;
use crate::edits::{attribute_edit, push_attributes};
use lfs_meta::Attribute;
use lfs_tag::Edit;
use std::alloc::AllocError;

/// Whether a kind is the one whose value is forced.
fn is_forced(forced: Option<u8>, kind: u8) -> bool
    ensures { result ≡ is_forced forced kind }
{
    match forced {
        None => false,
        Some(forced) => forced == kind,
    }
}

/// Adds the tag of an attribute that was there, where its value changes or is forced.
fn push_value<'a>(
    edits: &mut Vec<Edit<'a>>,
    forced: Option<u8>,
    id: u16,
    old: &Attribute,
    new: &'a Attribute,
) -> Result<(), AllocError>
    requires { id < 1023 }
    ensures { OnOk result (items edits.new.items ≡ items edits.old.items ++ value_tags forced id old.now new.now) }
{
    if old.value.as_slice() == new.value.as_slice() && !is_forced(forced, new.kind) {
        return Ok(());
    }
    edits.push(attribute_edit(id, new))?;
    Ok(())
}

/// How many attributes at the front have lesser kinds.
fn place_of(attributes: &[Attribute], kind: u8) -> usize
    ensures { result ≡ prefix_len (λ a. nat_lt a.0 kind) attributes.now }
{
    attributes
        .iter()
        .take_while(|attribute| attribute.kind < kind)
        .count()
}

/// Whether the attribute at a place has this kind.
fn has_kind_at(attributes: &[Attribute], at: usize, kind: u8) -> bool
    ensures within { OnTrue result (at < length attributes.now) }
    ensures same { OnTrue result (HoldsAt (λ a. a.0 ≡ kind) attributes.now at) }
    ensures other { OnFalse result (at < length attributes.now → HoldsAt (λ a. a.0 ≢ kind) attributes.now at) }
{
    if at >= attributes.len() {
        return false;
    }
    let attribute = &attributes[at];
    attribute.kind == kind
}

/// Adds the tags of the new attributes of lesser kinds than an old one's, and behind them the old one's. Hands out the new ones
/// that are left.
fn push_next<'a>(
    edits: &mut Vec<Edit<'a>>,
    forced: Option<u8>,
    id: u16,
    old: &Attribute,
    attributes: &'a [Attribute],
) -> Result<&'a [Attribute], AllocError>
    requires { id < 1023 }
    ensures { IfOk result (λ left. (more : Attributes) → items edits.new.items ++ attributes_between forced id more left.now
        ≡ items edits.old.items ++ attributes_between forced id (old.now ∷ more) attributes.now) }
{
    let count = place_of(attributes, old.kind);
    push_attributes(edits, id, &attributes[..count])?;
    if has_kind_at(attributes, count, old.kind) {
        push_value(edits, forced, id, old, &attributes[count])?;
        return Ok(&attributes[count + 1..]);
    }
    edits.push(gone_edit(id, old.kind))?;
    Ok(&attributes[count..])
}

/// Adds the tags between two lists of attributes.
pub(crate) fn push_attributes_between<'a>(
    edits: &mut Vec<Edit<'a>>,
    forced: Option<u8>,
    id: u16,
    old: &[Attribute],
    new: &'a [Attribute],
) -> Result<(), AllocError>
    requires { id < 1023 }
    ensures { OnOk result (items edits.new.items ≡ items edits.old.items ++ attributes_between forced id old.now new.now) }
{
    let mut left = new;
    for attribute in old {
        left = push_next(edits, forced, id, attribute, left)?;
    }
    push_attributes(edits, id, left)
}
