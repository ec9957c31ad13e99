//! The tags between two entries of one name.

ghost use Rattle.std.specs.Prelude.{◌≡◌, ◌<◌, ◌++◌, OnOk};
ghost use Rattle.lfs_tag.specs.Writing.{items};
ghost use Rattle.lfs_meta.specs.BodyHeld.{body_held};
ghost use Rattle.lfs_pair.specs.Difference.{body_tags, entry_between, is_same_body};
ghost use Rattle.lfs_pair.specs.DifferenceSeen.{forced_seen};

use crate::attributes_between::push_attributes_between;
use crate::edits::body_edit;
use crate::forced::{Forced, forced_value, is_struct_forced};
use lfs_meta::{Body, Entry};
use lfs_tag::Edit;
use std::alloc::AllocError;

/// Whether two structs are the same.
#[tactic(auto, unfolding(crate::specs::Difference::is_same_body))]
fn is_same_body(old: &Body, new: &Body) -> bool
    ensures { result ≡ is_same_body (body_held old.now) (body_held new.now) }
{
    match (old, new) {
        (Body::Inline(bytes), Body::Inline(others)) => bytes.as_slice() == others.as_slice(),
        (
            Body::Chain { head, size },
            Body::Chain {
                head: other,
                size: len,
            },
        ) => { head == other && size == len }
        (Body::Directory(first, second), Body::Directory(one, two)) => {
            first == one && second == two
        }
        _ => false,
    }
}

/// Adds the tag of a struct, where it changes or is forced.
fn push_body_between<'a>(
    edits: &mut Vec<Edit<'a>>,
    forced: bool,
    id: u16,
    old: &Entry,
    new: &'a Entry,
) -> Result<(), AllocError>
    requires { id < 1023 }
    ensures { OnOk result (items edits.new.items ≡ items edits.old.items ++ body_tags forced id old.now new.now) }
{
    if is_same_body(&old.body, &new.body) && !forced {
        return Ok(());
    }
    edits.push(body_edit(id, new))?;
    Ok(())
}

/// Adds the tags between two entries of one name.
pub(crate) fn push_entry_between<'a>(
    edits: &mut Vec<Edit<'a>>,
    forced: Forced<'_>,
    id: u16,
    old: &Entry,
    new: &'a Entry,
) -> Result<(), AllocError>
    requires { id < 1023 }
    ensures { OnOk result (items edits.new.items ≡ items edits.old.items ++ entry_between (forced_seen forced.entry) id old.now new.now) }
{
    push_body_between(edits, is_struct_forced(forced, new), id, old, new)?;
    push_attributes_between(
        edits,
        forced_value(forced, new),
        id,
        &old.attributes,
        &new.attributes,
    )
}
