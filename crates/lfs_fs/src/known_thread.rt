//! The thread of a known outline, from its end, so that its parts are taken off in their order.

ghost use Rattle.std.specs.Prelude.{◌≡◌, ◌++◌, OnOk, IfOk, reverse};
ghost use Rattle.lfs_fs.specs.Thread.{links, links_of};

use crate::known_part::KnownPart;
use crate::outline_directory::{OutlineDirectory, OutlineParts};
use crate::pushing::push;
use lfs_meta::Tail;
use std::alloc::{AllocError, Global};

/// Puts the parts of a directory behind others, its last one first, each with the tail behind it; `tail` stands behind the
/// directory. Takes memory.
fn push_directory(
    parts: &mut Vec<KnownPart>,
    directory: OutlineDirectory,
    tail: Tail,
) -> Result<(), AllocError>
    ensures { OnOk result (parts.new.items ≡ parts.old.items ++ reverse (links_of directory.first directory.more tail)) }
{
    let OutlineParts { first, mut more } = Box::into_inner(directory.parts);
    let mut tail = tail;
    'each: while let Some(part) = more.pop() {
        let (one, other) = part.pair();
        push(parts, KnownPart { part, tail })?;
        tail = Tail::Hard(one, other);
    }
    push(parts, KnownPart { part: first, tail })
}

/// The parts of directories in the order of the thread, its last one first, each with the tail behind it. Takes memory.
pub(crate) fn known_thread(
    alloc: Global,
    directories: Vec<OutlineDirectory>,
) -> Result<Vec<KnownPart>, AllocError>
    ensures { IfOk result (λ parts. parts.items ≡ reverse (links directories.items)) }
{
    let mut directories = directories;
    let mut parts = Vec::new(alloc);
    let mut tail = Tail::End;
    'each: while let Some(directory) = directories.pop() {
        let (one, other) = directory.parts.first.pair();
        push_directory(&mut parts, directory, tail)?;
        tail = Tail::Soft(one, other);
    }
    Ok(parts)
}
