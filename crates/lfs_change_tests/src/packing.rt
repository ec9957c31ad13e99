//! Rows that are packed into a new image.

use lfs_block::{Image, geometry_ok};
use lfs_edit::Refusal;
use lfs_fs::{Limits, MOST_HELD, Mounted, NEW_LIMITS, mount};
use lfs_json::Form;
use lfs_listing::send_listing;
use lfs_pack::{PackRow, least_count, pack, pack_within};
use lfs_sink::Out;
use std::alloc::{AllocError, Global};

// what the packed image lists
const LISTING: &str = "d          - /
d          - /d
f         65 /d/f
@ 74 01
";

/// The attributes of the file that is packed.
pub(crate) fn attributes(alloc: Global) -> Result<Vec<(u8, Vec<u8>)>, AllocError> {
    let mut attributes = Vec::new(alloc);
    attributes.push((0x74, Vec::from_slice(alloc, &[1])?))?;
    Ok(attributes)
}

/// A directory `/d`, and a file `/d/f` that takes one block beside its entry.
pub(crate) fn rows(attributes: &[(u8, Vec<u8>)]) -> [PackRow<'_>; 3] {
    let root = PackRow {
        path: b"/",
        bytes: None,
        most: MOST_HELD,
        attributes: &[],
    };
    let directory = PackRow {
        path: b"/d",
        ..root
    };
    let file = PackRow {
        path: b"/d/f",
        bytes: Some(&[7; 65]),
        most: MOST_HELD,
        attributes,
    };
    [root, directory, file]
}

// whether this is listed of a mounted image
fn lists(alloc: Global, mounted: &Mounted, listing: &str) -> bool {
    let mut text = Vec::new(alloc);
    let mut out = Out::new(&mut text);
    let is_sent = send_listing(alloc, Form::Text, mounted.rows(), &[], &mut out).is_ok();
    is_sent && text.as_slice() == listing.as_bytes()
}

// whether an image has the limits and so many free blocks, and lists this
fn holds(alloc: Global, image: &Image, limits: Limits, free: u32, listing: &str) -> bool {
    match mount(alloc, image) {
        Ok(mounted) => {
            mounted.limits() == limits
                && mounted.free_count() == free
                && lists(alloc, &mounted, listing)
        }
        Err(_) => false,
    }
}

// whether bytes are those of such an image, in blocks of 512 bytes
fn are_image(alloc: Global, bytes: Vec<u8>, limits: Limits, free: u32, listing: &str) -> bool {
    match Image::new(bytes, 512) {
        Ok(image) => holds(alloc, &image, limits, free, listing),
        Err(_) => false,
    }
}

// whether rows are packed into so many blocks of 512 bytes, and so many are free then
fn are_packed(alloc: Global, count: u32, rows: &[PackRow<'_>], free: u32, listing: &str) -> bool {
    if !geometry_ok(512, count) {
        return false;
    }
    match pack(alloc, 512, count, rows) {
        Ok(bytes) => are_image(alloc, bytes, NEW_LIMITS, free, listing),
        Err(_) => false,
    }
}

// whether the directory and the file are packed
fn file_is_packed(alloc: Global) -> bool {
    match attributes(alloc) {
        Ok(attributes) => are_packed(alloc, 8, &rows(&attributes), 3, LISTING),
        Err(_) => false,
    }
}

#[test]
fn rows_are_packed_into_an_image(rt: HostRuntime) {
    assert!(rt; file_is_packed(rt.alloc()));
}

// the limits of what is packed, which has nothing that is longer
const LIMITS: Limits = Limits {
    name: 1,
    file: 65,
    attribute: 1,
};

// whether the directory and the file are packed within the limits
fn file_is_packed_within(alloc: Global) -> bool {
    let Ok(attributes) = attributes(alloc) else {
        return false;
    };
    let mut at = 0;
    match pack_within(alloc, 512, 8, LIMITS, &rows(&attributes), &mut at) {
        Ok(bytes) => are_image(alloc, bytes, LIMITS, 3, LISTING),
        Err(_) => false,
    }
}

#[test]
fn rows_are_packed_within_limits(rt: HostRuntime) {
    assert!(rt; file_is_packed_within(rt.alloc()));
}

// whether a file that is longer than the limit isn't packed, and its row is told
fn longer_is_refused(alloc: Global) -> bool {
    let Ok(attributes) = attributes(alloc) else {
        return false;
    };
    let limits = Limits { file: 64, ..LIMITS };
    let mut at = 0;
    match pack_within(alloc, 512, 8, limits, &rows(&attributes), &mut at) {
        Ok(_) => false,
        Err(refusal) => refusal == Refusal::FileTooLarge && at == 2,
    }
}

#[test]
fn longer_files_are_not_packed(rt: HostRuntime) {
    assert!(rt; longer_is_refused(rt.alloc()));
}

// whether the directory and the file need so many blocks
fn need(alloc: Global, blocks: u32) -> bool {
    let Ok(attributes) = attributes(alloc) else {
        return false;
    };
    match least_count(alloc, 512, NEW_LIMITS, &rows(&attributes)) {
        Ok(count) => count == blocks,
        Err(_) => false,
    }
}

#[test]
fn rows_need_as_many_blocks_as_they_use(rt: HostRuntime) {
    assert!(rt; need(rt.alloc(), 5));
}

// whether the root is packed with attributes
fn root_is_packed(alloc: Global) -> bool {
    let Ok(attributes) = attributes(alloc) else {
        return false;
    };
    let root = PackRow {
        path: b"/",
        bytes: None,
        most: MOST_HELD,
        attributes: &attributes,
    };
    are_packed(alloc, 2, &[root], 0, "d          - /\n@ 74 01\n")
}

#[test]
fn the_root_gets_attributes(rt: HostRuntime) {
    assert!(rt; root_is_packed(rt.alloc()));
}
