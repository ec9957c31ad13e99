//! The outline of an image that is known to have one.

ghost use Rattle.std.specs.Prelude.{IfOk};
ghost use Rattle.lfs_fs.specs.Mounted.{IsOutlineOf};
ghost use Rattle.lfs_fs.specs.Outlining.{HasOutline, IsEachOutline};

use crate::laws::{images_mount_to_one_tree, mounted_images_have_no_cause};
use crate::mounting::mount;
use crate::outline::Outline;
use lfs_block::{Blocks, MountFault};
use std::alloc::{AllocError, Global};

/// Reads the outline of an image that is known to have one, so that nothing but memory can be wanting. There is no other.
pub fn outline_of<B: Blocks>(alloc: Global, blocks: &B) -> Result<Outline, AllocError>
    requires outline { HasOutline (B.disk blocks.now) }
    ensures read { IfOk result (λ outline. IsOutlineOf (B.disk blocks.now) outline) }
    ensures only { IfOk result (λ outline. IsEachOutline (B.disk blocks.now) outline) }
{
    mounted_images_have_no_cause();
    images_mount_to_one_tree();
    let _size = blocks.size();
    match mount(alloc, blocks) {
        Ok(mounted) => Ok(mounted.into_outline()),
        Err(fault) => match fault {
            MountFault::Memory => Err(AllocError),
            _ => unreachable!(),
        },
    }
}
