//! The block size that an image's file states.

ghost use Rattle.std.specs.Prelude.{IfOk};
ghost use Rattle.lfs_host.specs.Scene.{KeepsAll};
ghost use Rattle.lfs_open.specs.Stated.{IsStatedSize};

use lfs_host::{Host, ReadFault};
use lfs_lower::size_of;
use std::alloc::{AllocError, Global};

/// The block size where none is stated, in bytes.
const USUAL_SIZE: u32 = 4_096;
/// The most bytes that an image has.
const MOST_IMAGE: u64 = 67_108_864;

/// The size of a block, in bytes, of the image that begins at a place of its file: the least one that the last superblock of an image of
/// such blocks states; 4,096 where none does, and where the host refuses to read it. Nothing is changed. Takes memory.
pub fn stated_size<H: Host>(
    alloc: Global,
    host: &mut H,
    image: &str,
    place: u64,
) -> Result<u32, AllocError>
    ensures stated { IfOk result (IsStatedSize (H.known host.old) (H.known host.new) image.now place) }
    ensures kept { KeepsAll (H.known host.old) (H.known host.new) }
{
    match host.read(alloc, image, place, MOST_IMAGE) {
        Ok(bytes) => Ok(size_of(&bytes).unwrap_or(USUAL_SIZE)),
        Err(ReadFault::CannotRead) => Ok(USUAL_SIZE),
        Err(ReadFault::Memory) => Err(AllocError),
    }
}
