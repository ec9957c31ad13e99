//! What is known of an image.

ghost use Rattle.std.specs.Prelude.{Some, IfOk};
ghost use Rattle.lfs_block.specs.Disk.{Disk};
ghost use Rattle.lfs_fs.specs.Mounted.{IsOutlineOf};
ghost use Rattle.lfs_fs.specs.Outlining.{HasOutline};
ghost use Rattle.lfs_fs.specs.Table.{IsTableOf};
ghost use Rattle.lfs_session.specs.Known.{IsKnown};

use lfs_block::Image;
use lfs_fs::{Outline, UsedBlocks, outline_of, outlines_are_sound};
use std::alloc::{AllocError, Global};

/// The outline of an image, and the table of the blocks that it uses.
#[derive(Drop)]
pub(crate) struct Known {
    /// The outline.
    pub(crate) outline: Outline,
    /// The table.
    pub(crate) used: UsedBlocks,
}

/// The outline of an image with its table, read of the image.
fn read_known(alloc: Global, image: &Image) -> Result<Known, AllocError>
    requires { HasOutline image.now.disk }
    ensures outline { IfOk result (λ known. IsOutlineOf image.now.disk known.outline) }
    ensures table { IfOk result (λ known. IsTableOf known.outline known.used) }
{
    outlines_are_sound();
    let outline = outline_of(alloc, image)?;
    let used = outline.used_blocks(alloc)?;
    Ok(Known { outline, used })
}

/// What is known of an image, taken out, or read of the image where nothing is.
pub(crate) fn take_known(
    alloc: Global,
    image: &Image,
    known: &mut Option<Known>,
) -> Result<Known, AllocError>
    requires there { HasOutline image.now.disk }
    requires known { IsKnown image.now.disk known.old }
    ensures outline { IfOk result (λ taken. IsOutlineOf image.now.disk taken.outline) }
    ensures table { IfOk result (λ taken. IsTableOf taken.outline taken.used) }
    ensures left { IsKnown image.now.disk known.new }
{
    match known.take() {
        Some(taken) => Ok(taken),
        None => read_known(alloc, image),
    }
}

/// An outline of an image with its table. `None` says only that a growth was refused.
pub(crate) fn known_by(alloc: Global, outline: Outline) -> Option<Known>
    requires { (d : Disk) × IsOutlineOf d outline }
    ensures { (d : Disk) → IsOutlineOf d outline → IsKnown d result }
{
    outlines_are_sound();
    match outline.used_blocks(alloc) {
        Ok(used) => Some(Known { outline, used }),
        Err(_) => None,
    }
}
