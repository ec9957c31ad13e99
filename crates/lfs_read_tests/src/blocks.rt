//! Checksums, limits and blocks of images.

use crate::images::filled_image;
use lfs_block::{Blocks, Image, crc32, geometry_ok};
use std::alloc::Global;

#[test]
fn checksum_vectors(rt: HostRuntime) {
    assert!(rt; crc32(0xffff_ffff, b"123456789") == 0x340b_c6d9);
    assert!(rt; crc32(0xffff_ffff, b"") == 0xffff_ffff);
}

/// Whether an image is a block of zeros, and one of nines.
fn has_two_blocks(image: &Image) -> bool {
    geometry_ok(image.size(), image.count())
        && image.count() == 2
        && image.block(0).last() == Some(&0)
        && image.block(1).first() == Some(&9)
}

/// Whether the image of these two blocks, of 1,024 bytes each, has them, and gives its bytes back.
fn is_of_two_blocks(alloc: Global) -> bool {
    let Some(image) = filled_image(alloc, 1_024, &[0, 0, 0, 0, 9, 9, 9, 9]) else {
        return false;
    };
    let has_blocks = has_two_blocks(&image);
    image.into_bytes().len() == 2_048 && has_blocks
}

#[test]
fn block_is_its_slice(rt: HostRuntime) {
    assert!(rt; is_of_two_blocks(rt.alloc()));
}
