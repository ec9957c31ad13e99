//! The image in which pairs are read to tell of the faults of one that is read as a device does.

ghost use Rattle.std.specs.Prelude.{◌≡◌, IfOk};
ghost use Rattle.lfs_lower.specs.Through.{IsLoweredThrough};

use lfs_block::{Blocks, Image};
use lfs_lower::lower_all;
use std::alloc::{AllocError, Global};

/// All bytes of an image. Takes memory.
fn bytes_of(alloc: Global, image: &Image) -> Result<Vec<u8>, AllocError>
    ensures { IfOk result (λ bytes. bytes.items ≡ image.now.disk.bytes) }
{
    let _fits_the_limits = image.size();
    let mut bytes = Vec::new(alloc);
    for number in 0..image.count() {
        bytes.extend_from_slice(image.block(number))?;
    }
    Ok(bytes)
}

/// The image of the bytes of another one.
fn image_like(image: &Image, bytes: Vec<u8>) -> Image
    requires { bytes.items ≡ image.now.disk.bytes }
    ensures { result.disk ≡ image.now.disk }
{
    let Ok(made) = Image::new(bytes, image.size()) else {
        unreachable!();
    };
    made
}

/// A copy of an image with each of its blocks lowered: if the thread is broken, what stands after that is read too. Takes memory.
pub(crate) fn all_lowered(alloc: Global, image: &Image) -> Result<Image, AllocError>
    ensures { IfOk result (λ parts. IsLoweredThrough image.now.disk parts.disk) }
{
    let bytes = bytes_of(alloc, image)?;
    let mut parts = image_like(image, bytes);
    lower_all(alloc, &mut parts)?;
    Ok(parts)
}
