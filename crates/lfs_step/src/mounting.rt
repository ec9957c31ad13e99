//! Mounting images of a history.

ghost use Rattle.std.specs.Prelude.{◌≡◌, IfOk, IfErr};
ghost use Rattle.lfs_block.specs.Disk.{erased_block};
ghost use Rattle.lfs_block.specs.declared.mount_fault.MountFault.TheVariants.{Memory};
ghost use Rattle.lfs_fs.specs.Mounted.{IsMountOf};
ghost use Rattle.lfs_history.specs.declared.open_fault.OpenFault.TheVariants.{Mount};
ghost use Rattle.lfs_session.specs.Opened.{RefusesMount};

use lfs_block::{Blocks, MountFault};
use lfs_fs::{Mounted, mount};
use lfs_history::OpenFault;
use std::alloc::Global;

/// Mounts an image of a history; `JournalImage` where it has a cause, and want of memory.
pub(crate) fn mount_image<B: Blocks>(alloc: Global, blocks: &B) -> Result<Mounted, OpenFault>
    ensures mounted { IfOk result (λ m. IsMountOf (B.disk blocks.now) m) }
    ensures refused { IfErr result (λ fault. RefusesMount fault (B.disk blocks.now)) }
{
    match mount(alloc, blocks) {
        Ok(mounted) => Ok(mounted),
        Err(MountFault::Memory) => Err(OpenFault::Mount(MountFault::Memory)),
        Err(_) => Err(OpenFault::JournalImage),
    }
}

/// An erased block of this size.
pub(crate) fn erased_block(alloc: Global, size: u32) -> Result<Vec<u8>, OpenFault>
    ensures block { IfOk result (λ block. block.items ≡ erased_block size) }
    ensures memory { IfErr result (λ fault. fault ≡ Mount Memory) }
{
    match vec![in alloc; 0xff; size as usize] {
        Ok(block) => Ok(block),
        Err(_) => Err(OpenFault::Mount(MountFault::Memory)),
    }
}
