//! An outline written into an image.

ghost use Rattle.std.specs.Prelude.{OnOk};
ghost use Rattle.lfs_fs.specs.Thread.{links};
ghost use Rattle.lfs_fs.specs.DiskBut.{IsDiskBut};
ghost use Rattle.lfs_pack.specs.Filled.{CanTakeOutline, TakesOutline, first_blocks};

use crate::filling::fill_pair;
use lfs_block::{Blocks, Image};
use lfs_fs::Outline;
use lfs_write::outline_links;
use std::alloc::{AllocError, Global};

/// Writes each part of an outline into the first block of its pair, whatever its mark, beside the second one, which stays erased: a part
/// goes on with a hard tail to the next one of its directory, the last of a directory with a soft one to the next directory, and the last
/// of all with none. The superblock stands in front in the root's first part. Takes time that is linear in what is written. Where memory
/// is refused, only first blocks of these pairs are other ones.
pub fn write_outline(alloc: Global, image: &mut Image, outline: &Outline) -> Result<(), AllocError>
    requires { CanTakeOutline image.old.disk outline.now }
    ensures taken { OnOk result (TakesOutline image.old.disk image.new.disk outline.now) }
    ensures others { IsDiskBut (first_blocks (links outline.now.directories)) image.old.disk image.new.disk }
{
    let _size = image.size();
    let all = outline_links(alloc, outline)?;
    for link in &all {
        fill_pair(alloc, image, outline, link.part, link.tail)?;
    }
    Ok(())
}
