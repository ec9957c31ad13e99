//! Commits appended to pairs. Their bytes were put together by a program of their own, tag by tag.

use crate::commits::FORMATTED;
use crate::images::pair_of;
use crate::samples::block_of;
use crate::writing::small_part;
use lfs_block::{Blocks, Image};
use lfs_meta::Tail;
use lfs_pair::{Edit, EditData, Forced, Tag, append, change_pair};
use lfs_tag::commit_fits;
use std::alloc::Global;

/// A commit behind `FORMATTED`: the root's attribute of kind 0x74, two bytes.
const ATTRIBUTE: [u8; 16] = [
    0x67, 0x4f, 0xfc, 0x12, 0x01, 0x02, 0x67, 0x4f, 0xfc, 0x04, 0x9e, 0x27, 0x2f, 0xa5, 0xff, 0xff,
];

/// A commit behind `FORMATTED`: the superblock's struct once more, and a soft tail of 6 and 7.
const STRUCT_AND_TAIL: [u8; 48] = [
    0x70, 0x1f, 0xfc, 0x08, 0x00, 0x00, 0x02, 0x00, 0x00, 0x02, 0x00, 0x00, 0x08, 0x00, 0x00, 0x00,
    0xff, 0x00, 0x00, 0x00, 0xff, 0xff, 0xff, 0x7f, 0xfe, 0x03, 0x00, 0x00, 0x40, 0x1f, 0xfc, 0x10,
    0x06, 0x00, 0x00, 0x00, 0x07, 0x00, 0x00, 0x00, 0x30, 0x00, 0x00, 0x0c, 0x18, 0x37, 0x73, 0xf1,
];

/// The tag of the root's attribute of kind 0x74, with two bytes.
fn attribute<'a>() -> Edit<'a> {
    Edit {
        tag: Tag {
            kind: 0x374,
            id: 0,
            len: 2,
        },
        content: EditData::Bytes(&[1, 2]),
    }
}

/// Whether a block of 256 bytes is a new image's with a commit behind it.
fn is_longer(alloc: Global, block: &[u8], commit: &[u8]) -> bool {
    match block_of(alloc, 192, commit) {
        Ok(behind) => block.strip_prefix(&FORMATTED) == Some(behind.as_slice()),
        Err(_) => false,
    }
}

/// Whether an attribute is appended to the live block of an image.
fn is_appended(alloc: Global, image: &Image) -> bool {
    let _fits_the_limits = image.size();
    match append(alloc, image, (0, 1), &[attribute()]) {
        Ok(Some((number, bytes))) => number == 0 && is_longer(alloc, &bytes, &ATTRIBUTE),
        _ => false,
    }
}

/// Whether it is to that of a new one.
fn attribute_is_appended(alloc: Global) -> bool {
    match pair_of(alloc, &FORMATTED, b"") {
        Some(image) => is_appended(alloc, &image),
        None => false,
    }
}

#[test]
fn a_commit_is_appended_to_the_live_block(rt: HostRuntime) {
    assert!(rt; attribute_is_appended(rt.alloc()));
}

/// Whether the pair of a new image gets a tail, and its superblock's struct once more.
fn is_changed(alloc: Global, image: &Image) -> bool {
    let _fits_the_limits = image.size();
    let Some(part) = small_part(alloc, image) else {
        return false;
    };
    let (tail, forced) = (Tail::Soft(6, 7), Forced::Struct(None));
    match change_pair(
        alloc,
        image,
        (0, 1),
        &part.entries,
        tail,
        part.delta,
        forced,
    ) {
        Ok((number, bytes)) => number == 0 && is_longer(alloc, &bytes, &STRUCT_AND_TAIL),
        Err(_) => false,
    }
}

/// Whether that of the new image does.
fn pair_is_changed(alloc: Global) -> bool {
    match pair_of(alloc, &FORMATTED, b"") {
        Some(image) => is_changed(alloc, &image),
        None => false,
    }
}

#[test]
fn a_pair_is_carried_to_a_part_by_a_commit(rt: HostRuntime) {
    assert!(rt; pair_is_changed(rt.alloc()));
}

#[test]
fn commits_fit_with_their_padding(rt: HostRuntime) {
    let edits = [attribute()];
    assert!(rt; commit_fits(64, &edits, 80));
    assert!(rt; !commit_fits(64, &edits, 79));
    assert!(rt; !commit_fits(67, &edits, 95));
}
