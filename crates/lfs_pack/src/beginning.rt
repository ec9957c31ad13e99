//! The beginning of a new image.

ghost use Rattle.std.specs.Prelude.{◌≡◌, [], ◌∷◌, false, IfOk};
ghost use Rattle.lfs_block.specs.Geometry.{IsGeometry};
ghost use Rattle.lfs_fs.specs.Formatted.{empty_volume};
ghost use Rattle.lfs_fs.specs.Pair.{root};
ghost use Rattle.lfs_fs.specs.Superblock.{IsLimits};
ghost use Rattle.lfs_pack.specs.RowsCarried.{IsAtWork};
ghost use Rattle.lfs_pack.specs.Unwritten.{IsErasedImage};

use crate::image_laws::unwritten_images_go_on;
use crate::new_image::NewImage;
use lfs_block::{Blocks, Image};
use lfs_fs::{Delta, Limits, Outline, OutlineDirectory, OutlinePart, ROOT};
use std::alloc::{AllocError, Global};

/// An image whose blocks are erased.
fn erased_image(alloc: Global, size: u32, count: u32) -> Result<Image, AllocError>
    requires { IsGeometry size count }
    ensures { IfOk result (λ image. IsErasedImage size count image.disk) }
{
    let bytes = vec![in alloc; 0xff; size as usize * count as usize]?;
    let Ok(image) = Image::new(bytes, size) else {
        unreachable!();
    };
    Ok(image)
}

/// The root without entries.
fn root_directory(alloc: Global) -> Result<OutlineDirectory, AllocError>
    ensures { IfOk result (λ d. d ≡ record { first = record { pair = root; entries = []; delta = 0; dirty = false }; more = [] }) }
{
    let part = OutlinePart {
        pair: ROOT,
        entries: Vec::new(alloc),
        delta: Delta::none(),
        dirty: false,
    };
    OutlineDirectory::new(alloc, part, Vec::new(alloc))
}

/// The outline of the root alone.
fn root_outline(alloc: Global, size: u32, count: u32, limits: Limits) -> Result<Outline, AllocError>
    ensures { IfOk result (λ outline. outline ≡ empty_volume size count limits []) }
{
    let mut directories = Vec::new(alloc);
    directories.push(root_directory(alloc)?)?;
    Ok(Outline {
        size,
        count,
        limits,
        attributes: Vec::new(alloc),
        directories,
    })
}

/// A new image of `count` blocks of `size` bytes at work, with these limits, of the root alone.
pub(crate) fn new_image(
    alloc: Global,
    size: u32,
    count: u32,
    limits: Limits,
) -> Result<NewImage, AllocError>
    requires geometry { IsGeometry size count }
    requires limits { IsLimits limits }
    ensures { IfOk result (λ t. IsAtWork t (empty_volume size count limits [])) }
{
    unwritten_images_go_on();
    let image = erased_image(alloc, size, count)?;
    let outline = root_outline(alloc, size, count, limits)?;
    let used = outline.used_blocks(alloc)?;
    Ok(NewImage {
        image,
        outline,
        used,
    })
}
