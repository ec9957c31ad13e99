//! As many bytes of an image as its superblock states.

ghost use Rattle.std.specs.Prelude.{◌≡◌, IfOk};
ghost use Rattle.lfs_fs.specs.Reading.{reading_of};
ghost use Rattle.lfs_lower.specs.Own.{IsOwnPart, count_in, count_stated, own_part};

use crate::superblocks::{is_superblock, part_at};
use lfs_block::{Blocks, Image, little_word};
use lfs_fs::ROOT;
use lfs_meta::{Body, Entry};
use std::alloc::{AllocError, Global};

/// The number of blocks that the superblock states with which entries begin.
fn count_in(entries: &[Entry]) -> Option<u32>
    ensures { result ≡ count_in entries.now }
{
    let (first, _) = entries.split_first()?;
    if !is_superblock(first) {
        return None;
    }
    let Body::Inline(bytes) = &first.body else {
        return None;
    };
    Some(little_word(&bytes[8..12]))
}

/// The number of blocks that an image's superblock states; `None` where its root's first pair begins with none.
fn count_stated(alloc: Global, image: &Image) -> Result<Option<u32>, AllocError>
    ensures { IfOk result (λ count. count ≡ count_stated (reading_of image.now.disk)) }
{
    let _fits_the_limits = image.size();
    match part_at(alloc, image, ROOT)? {
        Some(part) => Ok(count_in(&part.entries)),
        None => Ok(None),
    }
}

/// As many bytes of an image as its superblock states.
fn own_part(alloc: Global, image: Image) -> Result<Vec<u8>, AllocError>
    ensures { IfOk result (λ own. own.items ≡ own_part image.disk) }
{
    let size = image.size() as usize;
    let stated = count_stated(alloc, &image)?;
    let mut bytes = image.into_bytes();
    let Some(count) = stated else {
        return Ok(bytes);
    };
    bytes.truncate(count as usize * size);
    Ok(bytes)
}

/// As many bytes as the superblock states of the image of blocks of `size` bytes that they are: all of them where it has none, or states
/// more. Bytes that are no image stay. Takes memory.
pub fn own_bytes(alloc: Global, size: u32, bytes: Vec<u8>) -> Result<Vec<u8>, AllocError>
    ensures { IfOk result (λ own. IsOwnPart size bytes.items own.items) }
{
    match Image::new(bytes, size) {
        Ok(image) => own_part(alloc, image),
        Err((_, bytes)) => Ok(bytes),
    }
}
