//! Directories that are dropped.

ghost use Rattle.std.specs.Prelude.{◌≡◌, ◌++◌, IfOk, OnOk, flat_map};
ghost use Rattle.lfs_settle.specs.Ended.{as_dropped};

use crate::ended::DroppedDirectory;
use lfs_meta::{Entry, Part};
use std::alloc::{AllocError, Global};

/// The entries of parts. Takes memory.
fn entries_of(alloc: Global, parts: Vec<Part>) -> Result<Vec<Entry>, AllocError>
    ensures { IfOk result (λ entries. entries.items ≡ flat_map (λ p. p.1.entries) parts.items) }
{
    let mut entries = Vec::new(alloc);
    'each: for part in parts {
        let mut more = part.entries;
        entries.append(&mut more)?;
    }
    Ok(entries)
}

/// Puts a directory after those that are dropped. Takes memory.
pub(crate) fn push_dropped(
    alloc: Global,
    dropped: &mut Vec<DroppedDirectory>,
    group: Vec<Part>,
) -> Result<(), AllocError>
    ensures { OnOk result (dropped.new.items ≡ dropped.old.items ++ as_dropped group.items) }
{
    let Some(first) = group.first() else {
        return Ok(());
    };
    let pair = first.pair;
    let entries = entries_of(alloc, group)?;
    dropped.push(DroppedDirectory { pair, entries })?;
    Ok(())
}
