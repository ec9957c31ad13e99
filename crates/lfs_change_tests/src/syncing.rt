//! Plans of whole trees: the commands that they are.

use crate::packing::{attributes, rows};
use lfs_block::{Image, geometry_ok};
use lfs_command::{Asked, Command};
use lfs_fs::{MOST_HELD, Mounted, mount};
use lfs_meta::names_are_decided;
use lfs_pack::pack;
use lfs_sync::{Planned, SyncRow, commands_of, make_plan, put_plan, remove_plan, sync_plan};
use std::alloc::{AllocError, Global};

// an image with a directory `/d` and a file `/d/f`
fn image(alloc: Global) -> Option<Image> {
    if !geometry_ok(512, 8) {
        return None;
    }
    let attributes = attributes(alloc).ok()?;
    let bytes = pack(alloc, 512, 8, &rows(&attributes)).ok()?;
    Image::new(bytes, 512).ok()
}

// adds what a command does, to which path, and the contents that it puts
fn append_command(text: &mut Vec<u8>, command: &Asked<'_>) -> Result<(), AllocError> {
    let (word, path, bytes): (&[u8], &[u8], &[u8]) = match *command {
        Command::Rm { path } => (b"rm ", path, b""),
        Command::Mkdir { path } => (b"mkdir ", path, b""),
        Command::Put { path, bytes, .. } => (b"put ", path, bytes),
        _ => (b"other ", b"", b""),
    };
    text.extend_from_slice(word)?;
    text.extend_from_slice(path)?;
    text.extend_from_slice(b" ")?;
    text.extend_from_slice(bytes)?;
    text.extend_from_slice(b"\n")
}

// what the commands of a plan do
fn told(alloc: Global, plan: &[Planned], rows: &[SyncRow<'_>]) -> Result<Vec<u8>, AllocError> {
    let mut text = Vec::new(alloc);
    for command in &commands_of(alloc, plan, rows, MOST_HELD)? {
        append_command(&mut text, command)?;
    }
    Ok(text)
}

// whether a plan does this
fn tells(alloc: Global, plan: &[Planned], rows: &[SyncRow<'_>], expected: &[u8]) -> bool {
    match told(alloc, plan, rows) {
        Ok(text) => text.as_slice() == expected,
        Err(_) => false,
    }
}

#[derive(Clone, Copy)]
enum Operation {
    Remove,
    Make,
    Put,
}

// what is done at a path, and the commands that it takes
const ROWS: [(Operation, &[u8], &[u8]); 7] = [
    (Operation::Remove, b"/d", b"rm /d/f \nrm /d \n"),
    (Operation::Remove, b"/", b"rm / \n"),
    (Operation::Remove, b"/u", b"rm /u \n"),
    (Operation::Remove, b"u", b"rm u \n"),
    (Operation::Make, b"/d/x/y", b"mkdir /d/x \nmkdir /d/x/y \n"),
    (Operation::Make, b"/d", b""),
    (Operation::Put, b"/u/v", b"mkdir /u \nput /u/v z\n"),
];

// the plan of an operation
fn plan_of(
    alloc: Global,
    mounted: &Mounted,
    operation: Operation,
    at: &[u8],
) -> Result<Vec<Planned>, AllocError> {
    match operation {
        Operation::Remove => remove_plan(alloc, mounted, at),
        Operation::Make => make_plan(alloc, mounted, at),
        Operation::Put => put_plan(alloc, mounted, at),
    }
}

// whether a row of the table is right
fn is_planned(alloc: Global, mounted: &Mounted, row: &(Operation, &[u8], &[u8])) -> bool {
    let (operation, at, expected) = *row;
    let rows = [SyncRow {
        path: at,
        bytes: Some(b"z"),
    }];
    match plan_of(alloc, mounted, operation, at) {
        Ok(plan) => tells(alloc, &plan, &rows, expected),
        Err(_) => false,
    }
}

// whether all rows of the table are right
fn all_are_planned(alloc: Global) -> bool {
    let Some(image) = image(alloc) else {
        return false;
    };
    let Ok(mounted) = mount(alloc, &image) else {
        return false;
    };
    for row in &ROWS {
        if !is_planned(alloc, &mounted, row) {
            return false;
        }
    }
    true
}

#[test]
fn parts_of_trees_are_removed_and_made(rt: HostRuntime) {
    assert!(rt; all_are_planned(rt.alloc()));
}

// whether the image becomes a folder in which `/d` is a file, and `/e` a directory
fn folder_is_planned(alloc: Global) -> bool {
    names_are_decided();
    let Some(image) = image(alloc) else {
        return false;
    };
    let Ok(mounted) = mount(alloc, &image) else {
        return false;
    };
    let rows = [
        SyncRow {
            path: b"/",
            bytes: None,
        },
        SyncRow {
            path: b"/d",
            bytes: Some(b"x"),
        },
        SyncRow {
            path: b"/e",
            bytes: None,
        },
    ];
    match sync_plan(alloc, &image, &mounted, b"/", &rows) {
        Ok(plan) => tells(
            alloc,
            &plan,
            &rows,
            b"rm /d/f \nrm /d \nmkdir /e \nput /d x\n",
        ),
        Err(_) => false,
    }
}

#[test]
fn an_image_becomes_a_folder(rt: HostRuntime) {
    assert!(rt; folder_is_planned(rt.alloc()));
}
