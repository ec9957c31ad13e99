//! Images that the tests read.

ghost use Rattle.std.specs.Prelude.{◌≡◌, IfSome};

use lfs_block::Image;
use lfs_meta::{Body, Entry, Kind, Part, read_pair};
use std::alloc::{AllocError, Global};

/// The image of these bytes in blocks of this size; none where no image has them.
pub(crate) fn image(bytes: Vec<u8>, size: u32) -> Option<Image>
    ensures { IfSome result (λ image. image.disk.size ≡ size) }
{
    Image::new(bytes, size).ok()
}

/// A log, or other bytes, behind the place at which they stand.
pub(crate) type Head<'a> = (usize, &'a [u8]);

/// So many bytes, which are erased but for heads, each of which begins behind the end of the one before.
fn bytes_of(alloc: Global, len: usize, heads: &[Head<'_>]) -> Result<Vec<u8>, AllocError> {
    let mut bytes = Vec::new(alloc);
    for (at, head) in heads {
        bytes.resize(*at, 0xff)?;
        bytes.extend_from_slice(head)?;
    }
    bytes.resize(len, 0xff)?;
    Ok(bytes)
}

/// An image of so many bytes in blocks of this size, which are erased but for heads.
pub(crate) fn image_of(alloc: Global, size: u32, len: usize, heads: &[Head<'_>]) -> Option<Image> {
    match bytes_of(alloc, len, heads) {
        Ok(bytes) => image(bytes, size),
        Err(_) => None,
    }
}

/// An image of two blocks of 256 bytes, erased behind their logs.
pub(crate) fn pair_of(alloc: Global, first: &[u8], second: &[u8]) -> Option<Image> {
    image_of(alloc, 256, 512, &[(0, first), (256, second)])
}

/// What the pair of such a block and an erased one holds.
pub(crate) fn part_of(alloc: Global, log: &[u8]) -> Option<Part> {
    match pair_of(alloc, log, b"") {
        Some(image) => read_pair(alloc, &image, (0, 1)).ok(),
        None => None,
    }
}

/// Adds 256 bytes of each of these values.
pub(crate) fn add_fills(bytes: &mut Vec<u8>, fills: &[u8]) -> Result<(), AllocError> {
    for fill in fills {
        bytes.extend_from_slice(&[*fill; 256])?;
    }
    Ok(())
}

/// The bytes of these values.
fn filled(alloc: Global, fills: &[u8]) -> Result<Vec<u8>, AllocError> {
    let mut bytes = Vec::new(alloc);
    add_fills(&mut bytes, fills)?;
    Ok(bytes)
}

/// An image in blocks of this size that has 256 bytes of each of these values.
pub(crate) fn filled_image(alloc: Global, size: u32, fills: &[u8]) -> Option<Image>
    ensures { IfSome result (λ image. image.disk.size ≡ size) }
{
    match filled(alloc, fills) {
        Ok(bytes) => image(bytes, size),
        Err(_) => None,
    }
}

/// A file without contents.
pub(crate) fn file(alloc: Global) -> Result<Entry, AllocError> {
    Ok(Entry {
        name: Vec::from_slice(alloc, b"f")?,
        kind: Kind::File,
        body: Body::Inline(Vec::new(alloc)),
        attributes: Vec::new(alloc),
    })
}
