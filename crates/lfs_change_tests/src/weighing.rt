//! What an entry takes of a block.

use lfs_cut::weight;
use lfs_draft::new_entry;
use lfs_fs::OutlineBody;
use lfs_meta::run_takes;
use std::alloc::Global;

/// Whether a file whose contents stand in its entry weighs so much.
fn file_weighs(alloc: Global, wanted: u32) -> bool {
    let Ok(held) = Vec::from_slice(alloc, b"hello") else {
        return false;
    };
    match new_entry(alloc, b"abc", OutlineBody::Inline(held)) {
        Ok(entry) => weight(&entry) == wanted,
        Err(_) => false,
    }
}

/// Whether a directory does.
fn directory_weighs(alloc: Global, wanted: u32) -> bool {
    match new_entry(alloc, b"d", OutlineBody::Directory(2, 3)) {
        Ok(entry) => weight(&entry) == wanted,
        Err(_) => false,
    }
}

#[test]
fn tags_names_and_contents_weigh(rt: HostRuntime) {
    assert!(rt; file_weighs(rt.alloc(), 16));
    assert!(rt; directory_weighs(rt.alloc(), 17));
}

#[test]
fn a_run_takes_what_fits(rt: HostRuntime) {
    assert!(rt; run_takes(472, 456, 999, 16));
    assert!(rt; !run_takes(472, 457, 999, 16));
    assert!(rt; !run_takes(472, 0, 1_000, 16));
}
