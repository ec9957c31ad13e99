//! The parts of an image's thread, kept as they are read.

ghost use Rattle.std.specs.Prelude.{◌≡◌, IfOk, IfErr, OnOk, length};
ghost use Rattle.lfs_block.specs.Disk.{IsDisk};
ghost use Rattle.lfs_fs.specs.Cause.{HasCause};
ghost use Rattle.lfs_fs.specs.Reading.{reading_of};
ghost use Rattle.lfs_fs.specs.Thread.{next};
ghost use Rattle.lfs_fs.specs.SuperblockFirst.{BlamesSuperblock, HasGoodSuperblock};
ghost use Rattle.lfs_fs.specs.ThreadRead.{IsRootRead, IsRootTaken, IsThreadKept};
ghost use Rattle.lfs_fs.specs.Used.{Marks};

use crate::joined::Joined;
use crate::limits::Limits;
use crate::superblock::first_fits;
use crate::used::mark_all;
use lfs_block::{Blocks, MountFault};
use lfs_meta::{Part, Tail, read_pair, unread_pairs_hold_no_part};
use std::alloc::Global;

/// The root's first pair.
///
/// Source: SPEC.md, "0x0ff superblock".
pub const ROOT: (u32, u32) = (0, 1);

/// The pair that a tail names; `None` where the thread ends.
///
/// Source: SPEC.md, "0x6xx tail".
pub fn next_pair(tail: Tail) -> Option<(u32, u32)>
    ensures { result ≡ next tail }
{
    match tail {
        Tail::End => None,
        Tail::Soft(first, second) | Tail::Hard(first, second) => Some((first, second)),
    }
}

/// The part of the root's first pair, whose blocks are marked: what `read_pair` refuses, else what its first entry is refused for
/// as a superblock, so that this is told before anything that the pair leads to.
pub(crate) fn read_root<B: Blocks>(
    alloc: Global,
    blocks: &B,
    used: &mut [bool],
) -> Result<Part, MountFault>
    requires len { length used.old ≡ (B.disk blocks.now).count }
    requires fresh { Marks used.old (λ b. 0) }
    ensures read { IfOk result (λ part. IsRootRead (reading_of (B.disk blocks.now)) part used.new) }
    ensures good { OnOk result (HasGoodSuperblock (B.disk blocks.now)) }
    ensures refused { IfErr result (λ fault. HasCause (B.disk blocks.now) fault) }
    ensures first { IfErr result (λ fault. BlamesSuperblock (B.disk blocks.now) fault) }
{
    unread_pairs_hold_no_part();
    let size = blocks.size();
    let count = blocks.count();
    let root = read_pair(alloc, blocks, ROOT)?;
    first_fits(&root.entries, size, count)?;
    mark_all(used, &[ROOT.0, ROOT.1])?;
    Ok(root)
}

/// The parts of the thread from the root's on, less its superblock, each kept as soon as it is read, so that no part is held twice; the
/// blocks of their pairs and of their files are marked: `BlockRange` or `BlockTwice` where a tail names a block that isn't the disk's or
/// that is marked, else what `read_pair` refuses, or what a part isn't kept for.
pub(crate) fn read_thread<B: Blocks>(
    alloc: Global,
    blocks: &B,
    limits: Limits,
    used: &mut [bool],
    root: Part,
) -> Result<Joined, MountFault>
    requires disk { IsDisk (B.disk blocks.now) }
    requires root { IsRootTaken (reading_of (B.disk blocks.now)) limits root used.old }
    ensures kept { IfOk result (λ joined. IsThreadKept (reading_of (B.disk blocks.now)) limits root used.new joined) }
    ensures refused { IfErr result (λ fault. HasCause (B.disk blocks.now) fault) }
{
    let mut next = next_pair(root.tail);
    let mut joined = Joined::new(alloc);
    joined.keep(alloc, blocks, limits, used, root)?;
    'thread: while let Some(pair) = next {
        mark_all(used, &[pair.0, pair.1])?;
        let part = read_pair(alloc, blocks, pair)?;
        next = next_pair(part.tail);
        joined.keep(alloc, blocks, limits, used, part)?;
    }
    Ok(joined)
}
