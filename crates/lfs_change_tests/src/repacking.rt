//! Rows of an image that are packed again.

use crate::packing::{attributes, rows};
use lfs_block::{Image, geometry_ok};
use lfs_fs::{MOST_HELD, mount};
use lfs_pack::{PackRow, pack, pack_rows, source_rows};
use std::alloc::Global;

// the bytes of an image of 8 blocks of 512 bytes of rows
fn packed(alloc: Global, rows: &[PackRow<'_>]) -> Option<Vec<u8>> {
    if !geometry_ok(512, 8) {
        return None;
    }
    pack(alloc, 512, 8, rows).ok()
}

// the bytes of an image of the rows of another one
fn packed_again(alloc: Global, image: &Image) -> Option<Vec<u8>> {
    let mounted = mount(alloc, image).ok()?;
    let copied = source_rows(alloc, image, &mounted).ok()?;
    let rows = pack_rows(alloc, &copied, MOST_HELD).ok()?;
    packed(alloc, &rows)
}

// whether an image of the same rows is the same
fn is_the_same_again(alloc: Global, image: &Image, bytes: &[u8]) -> bool {
    match packed_again(alloc, image) {
        Some(again) => again.as_slice() == bytes,
        None => false,
    }
}

// whether a directory and a file with an attribute are packed again as they were
fn rows_are_the_same_again(alloc: Global) -> bool {
    let Ok(attributes) = attributes(alloc) else {
        return false;
    };
    let rows = rows(&attributes);
    let (Some(bytes), Some(same)) = (packed(alloc, &rows), packed(alloc, &rows)) else {
        return false;
    };
    match Image::new(bytes, 512) {
        Ok(image) => is_the_same_again(alloc, &image, &same),
        Err(_) => false,
    }
}

#[test]
fn rows_of_an_image_are_packed_again(rt: HostRuntime) {
    assert!(rt; rows_are_the_same_again(rt.alloc()));
}
