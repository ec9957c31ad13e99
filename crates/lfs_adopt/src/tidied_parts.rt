//! Parts of a thread, of which those leave that are empty after a hard tail.

ghost use Rattle.std.specs.Prelude.{◌≡◌, ◌&&◌, IfOk, OnOk};
ghost use Rattle.lfs_adopt.specs.Tidied.{cleared_unless, is_empty, tidied_parts};
ghost use Rattle.lfs_adopt.specs.Tidying.{ends_hard, put_next};

use lfs_meta::{Entry, Part};
use lfs_settle::{clear_all, end_with, is_hard};
use std::alloc::{AllocError, Global};

/// Whether there are no entries.
fn is_empty(entries: &[Entry]) -> bool
    ensures { result ≡ is_empty entries.now }
{
    entries.is_empty()
}

/// Whether the last of parts has a hard tail.
fn ends_hard(parts: &[Part]) -> bool
    ensures { result ≡ ends_hard parts.now }
{
    match parts.last() {
        Some(part) => is_hard(part.tail),
        None => false,
    }
}

/// Whether a part leaves that comes after others: it is empty, and a hard tail leads to it.
fn leaves(kept: &[Part], part: &Part) -> bool
    ensures { result ≡ (ends_hard kept.now && is_empty part.now.1.entries) }
{
    ends_hard(kept) && is_empty(&part.entries)
}

/// Puts a part after others, unless it leaves: the last of them gets its tail then. Takes memory.
fn put_next(kept: &mut Vec<Part>, part: Part) -> Result<(), AllocError>
    ensures { OnOk result (kept.new.items ≡ put_next kept.old.items part) }
{
    if leaves(kept, &part) {
        end_with(kept, part.tail);
        return Ok(());
    }
    kept.push(part)?;
    Ok(())
}

/// Takes the shares of the state off parts, unless there are this many.
fn clear_unless(parts: &mut Vec<Part>, count: usize)
    ensures { parts.new.items ≡ cleared_unless count parts.old.items }
{
    if parts.len() == count {
        return;
    }
    clear_all(parts);
}

/// What stays of the parts along a thread: those that are empty later parts of directories are gone. If there are such, no share of the
/// state is left. Takes memory.
pub(crate) fn tidied_parts(alloc: Global, parts: Vec<Part>) -> Result<Vec<Part>, AllocError>
    ensures { IfOk result (λ tidied. tidied.items ≡ tidied_parts parts.items) }
{
    let count = parts.len();
    let mut kept = Vec::new(alloc);
    'each: for part in parts {
        put_next(&mut kept, part)?;
    }
    clear_unless(&mut kept, count);
    Ok(kept)
}
