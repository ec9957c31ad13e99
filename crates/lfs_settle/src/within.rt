//! The image with which bytes begin.

ghost use Rattle.std.specs.Prelude.{◌≡◌, IfErr, IfOk, true};
ghost use Rattle.lfs_settle.specs.ReadAs.{IsReadAs};
ghost use Rattle.lfs_settle.specs.Within.{IsImageWithin, complete_blocks};

use crate::by_device::read_by_device;
use lfs_block::MAX_BLOCK_COUNT;
use lfs_lower::own_bytes;
use std::alloc::{AllocError, Global};

/// The most blocks that an image has.
const MOST_BLOCKS: usize = MAX_BLOCK_COUNT as usize;

/// Bytes as a device reads them, if that is asked for, and else as they are. Takes memory then.
pub fn read_as(
    alloc: Global,
    by_device: bool,
    size: u32,
    bytes: Vec<u8>,
) -> Result<Vec<u8>, AllocError>
    ensures read { IfOk result (λ read. IsReadAs by_device size bytes.items read.items) }
    ensures refused { IfErr result (λ error. by_device ≡ true) }
{
    if by_device {
        return read_by_device(alloc, size, bytes);
    }
    Ok(bytes)
}

/// As many bytes as fill whole blocks of `size` bytes, of which an image has 65,536 at most.
fn complete_blocks(size: u32, bytes: Vec<u8>) -> Vec<u8>
    ensures { result.items ≡ complete_blocks size bytes.items }
{
    if size == 0 {
        return bytes;
    }
    let mut bytes = bytes;
    let size = size as usize;
    let count = (bytes.len() / size).min(MOST_BLOCKS);
    bytes.truncate(count * size);
    bytes
}

/// The image of blocks of `size` bytes with which bytes begin: the whole blocks that are there, at most 65,536, read as a device
/// does if that is asked for, and of them as many as the superblock states. If none is read, or it states more, all of them.
/// Takes memory.
pub fn read_within(
    alloc: Global,
    by_device: bool,
    size: u32,
    bytes: Vec<u8>,
) -> Result<Vec<u8>, AllocError>
    ensures { IfOk result (λ image. IsImageWithin by_device size bytes.items image.items) }
{
    let complete = read_as(alloc, by_device, size, complete_blocks(size, bytes))?;
    own_bytes(alloc, size, complete)
}
