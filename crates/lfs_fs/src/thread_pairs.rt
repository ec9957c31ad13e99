//! The pairs of an outline's thread.

ghost use Rattle.std.specs.Prelude.{◌≡◌, ◌++◌, OnOk, IfOk, map};
ghost use Rattle.lfs_fs.specs.Directory.{parts, thread};

use crate::outline::Outline;
use crate::outline_directory::OutlineDirectory;
use crate::outline_part::OutlinePart;
use crate::pushing::push;
use std::alloc::{AllocError, Global};

/// Puts the pairs of parts behind others. Takes memory.
fn push_pairs(pairs: &mut Vec<(u32, u32)>, parts: &[OutlinePart]) -> Result<(), AllocError>
    ensures { OnOk result (pairs.new.items ≡ pairs.old.items ++ map (λ p. p.pair) parts.now) }
{
    for part in parts {
        push(pairs, part.pair())?;
    }
    Ok(())
}

/// Puts the pairs of a directory's parts behind others. Takes memory.
fn push_directory(
    pairs: &mut Vec<(u32, u32)>,
    directory: &OutlineDirectory,
) -> Result<(), AllocError>
    ensures { OnOk result (pairs.new.items ≡ pairs.old.items ++ map (λ p. p.pair) (parts directory.now)) }
{
    push(pairs, directory.parts.first.pair())?;
    push_pairs(pairs, &directory.parts.more)
}

/// The pairs of the thread that these directories make. Takes memory.
fn pairs_of(alloc: Global, directories: &[OutlineDirectory]) -> Result<Vec<(u32, u32)>, AllocError>
    ensures { IfOk result (λ pairs. pairs.items ≡ map (λ p. p.pair) (thread directories.now)) }
{
    let mut pairs = Vec::new(alloc);
    for directory in directories {
        push_directory(&mut pairs, directory)?;
    }
    Ok(pairs)
}

/// The pairs of an outline's thread in order. Takes memory.
pub(crate) fn thread_of(alloc: Global, outline: &Outline) -> Result<Vec<(u32, u32)>, AllocError>
    ensures { IfOk result (λ pairs. pairs.items ≡ map (λ p. p.pair) (thread outline.now.directories)) }
{
    pairs_of(alloc, &outline.directories)
}
