//! Packing rows of paths into a new image.

ghost use Rattle.std.specs.Prelude.{◌≡◌, IfErr, IfOk, List, length};
ghost use Rattle.lfs_block.specs.Geometry.{IsGeometry};
ghost use Rattle.lfs_fs.specs.Limits.{new_limits};
ghost use Rattle.lfs_fs.specs.Superblock.{IsLimits};
ghost use Rattle.lfs_fs.specs.Volume.{Volume};
ghost use Rattle.lfs_pack.specs.Finished.{IsNewImageOf};
ghost use Rattle.lfs_pack.specs.Packed.{AreRowsOf, Packed};
ghost use Rattle.lfs_pack.specs.Packing.{IsPacked, RefusesPack, RefusesRow};
ghost use Rattle.lfs_pack.specs.RowsCarried.{IsAtWork, PacksRows};

use crate::beginning::new_image;
use crate::image_laws::unwritten_images_go_on;
use crate::new_image::NewImage;
use crate::outline_writing::write_outline;
use crate::pack_row::PackRow;
use crate::packing_laws::packing_laws;
use crate::rows::add_rows;
use lfs_block::{Blocks, Image};
use lfs_command::Refusal;
use lfs_fs::{Limits, NEW_LIMITS};
use std::alloc::{AllocError, Global};

/// A new image at work with all rows, the first of which is the root's. How many of them are added is put into `at`.
pub(crate) fn packed_image(
    alloc: Global,
    size: u32,
    count: u32,
    limits: Limits,
    rows: &[PackRow<'_>],
    at: &mut usize,
) -> Result<NewImage, Refusal>
    requires geometry { IsGeometry size count }
    requires limits { IsLimits limits }
    ensures packed { IfOk result (λ t. PacksRows size count limits rows.now t) }
    ensures counted { IfOk result (λ _. at.new ≡ length rows.now) }
    ensures refused { IfErr result (λ r. (packed : List Packed) → AreRowsOf rows.now packed → RefusesPack size count limits packed r) }
    ensures row { IfErr result (λ r. (packed : List Packed) → AreRowsOf rows.now packed → RefusesRow size count limits packed at.new r) }
{
    packing_laws();
    *at = 0;
    let mut new = new_image(alloc, size, count, limits)?;
    add_rows(alloc, &mut new, rows, at)?;
    Ok(new)
}

/// The image that holds the volume: each part is written once, alone into the first block of its pair, the second one of which stays
/// erased, as each block does that the volume doesn't use.
fn finished(alloc: Global, new: NewImage) -> Result<Image, AllocError>
    requires { (v : Volume) × IsAtWork new v }
    ensures { IfOk result (λ image. (v : Volume) → IsAtWork new v → IsNewImageOf v image.disk) }
{
    unwritten_images_go_on();
    let NewImage {
        mut image,
        outline,
        used: _,
    } = new;
    write_outline(alloc, &mut image, &outline)?;
    Ok(image)
}

/// A new image of `count` blocks of `size` bytes with what the rows have at their paths, with the usual limits: names may have 255 bytes,
/// files 2,147,483,647 and attributes 1,022. Else it is as `pack_within` says.
pub fn pack(alloc: Global, size: u32, count: u32, rows: &[PackRow<'_>]) -> Result<Vec<u8>, Refusal>
    requires { IsGeometry size count }
    ensures packed { IfOk result (λ bytes. (packed : List Packed) → AreRowsOf rows.now packed → IsPacked size count new_limits packed bytes.items) }
    ensures refused { IfErr result (λ r. (packed : List Packed) → AreRowsOf rows.now packed → RefusesPack size count new_limits packed r) }
{
    let mut at = 0;
    pack_within(alloc, size, count, NEW_LIMITS, rows, &mut at)
}

/// A new image of `count` blocks of `size` bytes with what the rows have at their paths: one with these limits that mounts to exactly the
/// map of the rows. Contents go straight into the image, and each part of a directory is written once, into the first block of its pair.
/// Takes time that is near-linear in bytes and rows. A refusal is what the next of these commands is refused with, with its numbers, once
/// those before it are carried out: for each row but the root's, to make the directory or to put the file; then to set its attributes, one
/// after another. `Memory` says only that a growth was refused. How many rows are added is put into `at`: once an image is made all of them, and
/// for any other refusal than `Memory` the index of the row that is refused.
pub fn pack_within(
    alloc: Global,
    size: u32,
    count: u32,
    limits: Limits,
    rows: &[PackRow<'_>],
    at: &mut usize,
) -> Result<Vec<u8>, Refusal>
    requires geometry { IsGeometry size count }
    requires limits { IsLimits limits }
    ensures packed { IfOk result (λ bytes. (packed : List Packed) → AreRowsOf rows.now packed → IsPacked size count limits packed bytes.items) }
    ensures counted { IfOk result (λ _. at.new ≡ length rows.now) }
    ensures refused { IfErr result (λ r. (packed : List Packed) → AreRowsOf rows.now packed → RefusesPack size count limits packed r) }
    ensures row { IfErr result (λ r. (packed : List Packed) → AreRowsOf rows.now packed → RefusesRow size count limits packed at.new r) }
{
    packing_laws();
    let new = packed_image(alloc, size, count, limits, rows, at)?;
    let image = finished(alloc, new)?;
    let _size = image.size();
    Ok(image.into_bytes())
}
