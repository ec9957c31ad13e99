//! Mounting an image.

ghost use Rattle.std.specs.Prelude.{IfOk, IfErr};
ghost use Rattle.lfs_fs.specs.Cause.{HasCause};
ghost use Rattle.lfs_fs.specs.Mounted.{IsMountOf};
ghost use Rattle.lfs_fs.specs.SuperblockFirst.{BlamesSuperblock};

use crate::gathering::{Gathered, gather};
use crate::mounted::Mounted;
use crate::order::order_of;
use crate::thread_pairs::thread_of;
use crate::used_blocks::UsedBlocks;
use lfs_block::{Blocks, MountFault};
use std::alloc::Global;

/// Judges an image: its outline, what stands at each path and its free blocks, or a cause for which it doesn't mount. Where
/// several causes hold, the answer is one of them; where the superblock has one, that is, where there is none, or its version, its
/// geometry or its limits aren't right, it is one of those. `Memory` says only that a growth was refused.
pub fn mount<B: Blocks>(alloc: Global, blocks: &B) -> Result<Mounted, MountFault>
    ensures mounted { IfOk result (λ m. IsMountOf (B.disk blocks.now) m) }
    ensures refused { IfErr result (λ fault. HasCause (B.disk blocks.now) fault) }
    ensures first { IfErr result (λ fault. BlamesSuperblock (B.disk blocks.now) fault) }
{
    let Gathered { outline, used } = gather(alloc, blocks)?;
    let order = order_of(alloc, &outline)?;
    let thread = thread_of(alloc, &outline)?;
    prove!(used.len() == blocks.count() as usize);
    let used = UsedBlocks::new(used);
    Ok(Mounted::new(outline, order, thread, used))
}
