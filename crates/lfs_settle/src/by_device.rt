//! Bytes as a device reads them.

ghost use Rattle.std.specs.Prelude.{IfOk};
ghost use Rattle.lfs_settle.specs.ByDevice.{AreRelaid, IsReadByDevice};

use crate::settling::settle;
use lfs_block::Image;
use lfs_lower::join;
use std::alloc::{AllocError, Global};

/// The bytes of an image that is settled, and has one superblock then.
fn relaid(alloc: Global, image: Image) -> Result<Vec<u8>, AllocError>
    ensures { IfOk result (λ bytes. AreRelaid image.disk bytes.items) }
{
    let mut image = image;
    settle(alloc, &mut image)?;
    join(alloc, &mut image)?;
    Ok(image.into_bytes())
}

/// Bytes as a device reads them, which a reader of version 2.0 then reads so: those of the image of blocks of `size` bytes that they are,
/// settled, and with one superblock if it was expanded. Bytes that are no image stay. Takes memory.
pub fn read_by_device(alloc: Global, size: u32, bytes: Vec<u8>) -> Result<Vec<u8>, AllocError>
    ensures { IfOk result (λ read. IsReadByDevice size bytes.items read.items) }
{
    match Image::new(bytes, size) {
        Ok(image) => relaid(alloc, image),
        Err((_, bytes)) => Ok(bytes),
    }
}
