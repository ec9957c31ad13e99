//! The parts of a thread, those of each directory together.

ghost use Rattle.std.specs.Prelude.{◌≡◌, ◌++◌, ◌∷◌, [], IfOk, OnOk, map};
ghost use Rattle.lfs_fs.specs.Thread.{is_hard};
ghost use Rattle.lfs_settle.specs.Grouping.{GoesOn, as_group};
ghost use Rattle.lfs_settle.specs.Reached.{groups};

use lfs_meta::{Part, Tail};
use std::alloc::{AllocError, Global};
use std::mem::replace;

/// Whether the thread goes on in the same directory.
pub fn is_hard(tail: Tail) -> bool
    ensures { result ≡ is_hard tail }
{
    matches!(tail, Tail::Hard(..))
}

/// Puts a part after those of its directory, which goes on after it or ends with it. Takes memory.
fn put_part(
    alloc: Global,
    groups: &mut Vec<Vec<Part>>,
    current: &mut Vec<Part>,
    part: Part,
) -> Result<(), AllocError>
    ensures { OnOk result (GoesOn (is_hard part.1.tail) (map (λ g. g.items) groups.old.items) (map (λ g. g.items) groups.new.items)
        (current.old.items ++ part ∷ []) current.new.items) }
{
    let goes_on = is_hard(part.tail);
    current.push(part)?;
    if goes_on {
        return Ok(());
    }
    let ended = replace(current, Vec::new(alloc));
    groups.push(ended)?;
    Ok(())
}

/// Puts the parts of a directory that goes on at the end after the others, if there are any. Takes memory.
fn put_last(groups: &mut Vec<Vec<Part>>, current: Vec<Part>) -> Result<(), AllocError>
    ensures { OnOk result (map (λ g. g.items) groups.new.items ≡ map (λ g. g.items) groups.old.items ++ as_group current.items) }
{
    if current.is_empty() {
        return Ok(());
    }
    groups.push(current)?;
    Ok(())
}

/// Parts, those of each directory together: cut after each part that has no hard tail. Takes memory.
pub(crate) fn grouped(alloc: Global, parts: Vec<Part>) -> Result<Vec<Vec<Part>>, AllocError>
    ensures { IfOk result (λ cut. map (λ g. g.items) cut.items ≡ groups parts.items) }
{
    let mut groups = Vec::new(alloc);
    let mut current = Vec::new(alloc);
    'each: for part in parts {
        put_part(alloc, &mut groups, &mut current, part)?;
    }
    put_last(&mut groups, current)?;
    Ok(groups)
}
