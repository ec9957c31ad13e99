//! What a command does to an entry that is there.

ghost use Rattle.std.specs.Prelude.{◌≡◌, OnOk, OnErr};
ghost use Rattle.lfs_draft.specs.EntryChange.{ChangeFits, entry_change};

use lfs_fs::{OutlineBody, OutlineEntry};
use lfs_meta::{remove_attribute, set_attribute};
use std::alloc::{AllocError, Global};

/// What a command does to an entry that is there.
#[derive(Drop)]
pub(crate) enum EntryChange<'a> {
    /// Its contents are others.
    Body(OutlineBody),
    /// The value of a kind is set.
    SetAttribute { kind: u8, value: &'a [u8] },
    /// The value of a kind is taken out.
    RemoveAttribute { kind: u8 },
}

/// Changes an entry. Want of memory changes nothing.
pub(crate) fn change_entry(
    alloc: Global,
    entry: &mut OutlineEntry,
    change: EntryChange,
) -> Result<(), AllocError>
    requires { ChangeFits change }
    ensures changed { OnOk result (entry.new ≡ entry_change change.entry entry.old) }
    ensures unchanged { OnErr result (entry.new ≡ entry.old) }
{
    match change {
        EntryChange::Body(body) => entry.body = body,
        EntryChange::SetAttribute { kind, value } => {
            set_attribute(&mut entry.attributes, alloc, kind, value)?;
        }
        EntryChange::RemoveAttribute { kind } => remove_attribute(&mut entry.attributes, kind),
    }
    Ok(())
}
