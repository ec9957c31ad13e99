//! What a mounted image shows of its tree.

use crate::images::{Head, image_of};
use crate::logs::{BELOW, TREE};
use lfs_block::Image;
use lfs_fs::{Mounted, Path, mount, outline_of, outlines_are_sound};
use std::alloc::Global;

// a tree in blocks of 512 bytes, with a file in blocks 5 and 7
const TREE_HEADS: [Head<'static>; 3] = [(0, TREE), (1_536, BELOW), (3_584, b"\x05\x00\x00\x00")];

// the image of the tree
fn tree(alloc: Global) -> Option<Image> {
    image_of(alloc, 512, 4_096, &TREE_HEADS)
}

// the tree, mounted
fn mounted_tree(alloc: Global) -> Option<Mounted> {
    match tree(alloc) {
        Some(image) => mount(alloc, &image).ok(),
        None => None,
    }
}

/// Whether a mounted image has the tree.
fn has_tree(mounted: &Mounted) -> bool {
    mounted.directories() == 2
        && mounted.files() == 4
        && mounted.thread() == [(0, 1), (3, 4)].as_slice()
        && mounted.limits().name == 255
        && mounted.rows().count() == 6
        && mounted.free_count() == 2
}

/// Whether the first row of an image shows a directory.
fn begins_with_a_directory(mounted: &Mounted) -> bool {
    match mounted.rows().next() {
        Some(row) => row.is_dir(),
        None => false,
    }
}

/// Whether the tree tells what it has.
fn tells_tree(alloc: Global) -> bool {
    match mounted_tree(alloc) {
        Some(mounted) => has_tree(&mounted) && begins_with_a_directory(&mounted),
        None => false,
    }
}

#[test]
fn mounted_image_tells_what_it_has(rt: HostRuntime) {
    assert!(rt; tells_tree(rt.alloc()));
}

/// Whether the least two free blocks of an image are these.
fn frees(alloc: Global, mounted: &Mounted, blocks: &[u32]) -> bool {
    if mounted.free_count() < 2 {
        return false;
    }
    match mounted.lowest_free(alloc, 2) {
        Some(lowest) => lowest.as_slice() == blocks,
        None => false,
    }
}

/// Whether the tree tells its least free blocks.
fn tells_free_blocks(alloc: Global) -> bool {
    match mounted_tree(alloc) {
        Some(mounted) => frees(alloc, &mounted, &[2, 6]),
        None => false,
    }
}

#[test]
fn mounted_image_tells_free_blocks(rt: HostRuntime) {
    assert!(rt; tells_free_blocks(rt.alloc()));
}

/// Whether an image has a directory at the root's path.
fn finds_root(alloc: Global, mounted: &Mounted) -> bool {
    let root = Path::new(Vec::new(alloc));
    match mounted.find(&root) {
        Some(found) => root.names().is_empty() && found.target().is_some(),
        None => false,
    }
}

/// Whether the tree has a directory there.
fn tree_has_root(alloc: Global) -> bool {
    match mounted_tree(alloc) {
        Some(mounted) => finds_root(alloc, &mounted),
        None => false,
    }
}

#[test]
fn mounted_image_finds_its_root(rt: HostRuntime) {
    assert!(rt; tree_has_root(rt.alloc()));
}

/// Whether the outline of an image that is mounted tells the tree's free blocks.
fn tells_blocks(alloc: Global, image: &Image) -> bool {
    outlines_are_sound();
    let Ok(mounted) = mount(alloc, image) else {
        return false;
    };
    match mounted.into_outline().used_blocks(alloc) {
        Ok(used) => used.free_count() == 2 && used.flags().get(6) == Some(&false),
        Err(_) => false,
    }
}

/// Whether the tree's outline tells them.
fn outline_tells_blocks(alloc: Global) -> bool {
    match tree(alloc) {
        Some(image) => tells_blocks(alloc, &image),
        None => false,
    }
}

#[test]
fn outline_tells_its_blocks(rt: HostRuntime) {
    assert!(rt; outline_tells_blocks(rt.alloc()));
}

/// How many directories the outline of an image has that is mounted before.
fn directories_again(alloc: Global, image: &Image) -> Option<usize> {
    let Ok(_mounted) = mount(alloc, image) else {
        return None;
    };
    match outline_of(alloc, image) {
        Ok(outline) => Some(outline.directories.len()),
        Err(_) => None,
    }
}

/// Whether the tree's outline is read again, with its two directories.
fn is_read_again(alloc: Global) -> bool {
    match tree(alloc) {
        Some(image) => directories_again(alloc, &image) == Some(2),
        None => false,
    }
}

#[test]
fn outline_is_read_again(rt: HostRuntime) {
    assert!(rt; is_read_again(rt.alloc()));
}
