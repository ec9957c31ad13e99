//! How far paths lead in an image that has a directory and a file in it.

use crate::packing::rows;
use lfs_block::Image;
use lfs_draft::reach;
use lfs_fs::{Outline, mount};
use lfs_pack::pack;
use std::alloc::Global;

// names, and how many of them lead to something
const REACHES: [(&[&[u8]], usize); 6] = [
    (&[], 0),
    (&[b"d"], 1),
    (&[b"d", b"f"], 2),
    (&[b"e", b"f"], 0),
    (&[b"d", b"g", b"h"], 1),
    (&[b"d", b"f", b"g"], 2),
];

// whether the names lead so far in an outline
fn all_lead(outline: &Outline) -> bool {
    for (names, count) in &REACHES {
        if reach(outline, names) != *count {
            return false;
        }
    }
    true
}

// whether they do in an image
fn all_lead_in(alloc: Global, image: &Image) -> bool {
    match mount(alloc, image) {
        Ok(mounted) => all_lead(mounted.outline()),
        Err(_) => false,
    }
}

// whether they do in the image of these bytes
fn all_lead_in_bytes(alloc: Global, bytes: Vec<u8>) -> bool {
    match Image::new(bytes, 512) {
        Ok(image) => all_lead_in(alloc, &image),
        Err(_) => false,
    }
}

// whether they do in the image of the directory and the file
fn names_lead_so_far(alloc: Global) -> bool {
    match pack(alloc, 512, 8, &rows(&[])) {
        Ok(bytes) => all_lead_in_bytes(alloc, bytes),
        Err(_) => false,
    }
}

#[test]
fn names_lead_to_what_is_there(rt: HostRuntime) {
    assert!(rt; names_lead_so_far(rt.alloc()));
}
