//! Plans of commands.

use crate::images::new_image;
use lfs_block::{Image, Patch};
use lfs_edit::{Asked, Command, plan};
use lfs_fs::{MOST_HELD, mount};
use std::alloc::Global;

// a file that takes one block beside its entry
const PUT: Asked<'static> = Command::Put {
    path: b"/a",
    bytes: &[7; 65],
    most: MOST_HELD,
};

// whether a patch writes just these blocks
fn writes(patch: &Patch, numbers: &[u32]) -> bool {
    for (record, number) in patch.records().iter().zip(numbers) {
        if record.number != *number {
            return false;
        }
    }
    patch.records().len() == numbers.len()
}

// whether the plan of a command on an image writes just these blocks
fn is_planned(alloc: Global, image: &Image, command: &Asked<'_>, numbers: &[u32]) -> bool {
    let Ok(mounted) = mount(alloc, image) else {
        return false;
    };
    match plan(alloc, image, &mounted, command) {
        Ok(patch) => writes(&patch, numbers),
        Err(_) => false,
    }
}

// whether the plan of that file on a new image writes its root and its least free block
fn put_is_planned(alloc: Global) -> bool {
    match new_image(alloc) {
        Some(image) => is_planned(alloc, &image, &PUT, &[0, 2]),
        None => false,
    }
}

#[test]
fn a_plan_writes_the_root_and_the_least_free_block(rt: HostRuntime) {
    assert!(rt; put_is_planned(rt.alloc()));
}
