//! Folders of a host in memory, read and made.

use lfs_block::{Image, geometry_ok};
use lfs_extract::{ExtractFault, FolderFault, FolderRow, extract_rows, folder_rows};
use lfs_fs::{MOST_HELD, mount};
use lfs_host::{Failing, MadeEntry, MemoryHost};
use lfs_open::rows_to_pack;
use lfs_pack::{PackRow, pack};
use std::alloc::{AllocError, Global};

/// What is expected at a path: a file's bytes, or a folder.
pub(crate) type Expected = (&'static str, Option<&'static [u8]>);

/// The rows of the folder `d`, in the order of paths.
const ROWS: [Expected; 5] = [
    ("/", None),
    ("/a", Some(b"one")),
    ("/b", None),
    ("/b/c", Some(b"two")),
    ("/b/e", Some(b"")),
];

/// What is made of them in the folder `out`.
const MADE: [Expected; 5] = [
    ("out", None),
    ("out/a", Some(b"one")),
    ("out/b", None),
    ("out/b/c", Some(b"two")),
    ("out/b/e", Some(b"")),
];

/// The files of a host: a folder `d`, in which a folder `b` is, and files beside it.
const FILES: [(&str, &[u8]); 5] = [
    ("d/b/e", b""),
    ("d/b/c", b"two"),
    ("d/a", b"one"),
    ("da", b"beside"),
    ("x/a", b"elsewhere"),
];

/// Puts these into a host.
fn put_files(host: &mut MemoryHost) -> Result<(), AllocError> {
    for (name, bytes) in &FILES {
        host.put(name, bytes)?;
    }
    Ok(())
}

/// A host with these.
fn host_with_folders(alloc: Global) -> Result<MemoryHost, AllocError> {
    let mut host = MemoryHost::new(alloc, b"");
    put_files(&mut host)?;
    Ok(host)
}

/// Whether a row is what is expected.
fn is_row(row: &FolderRow, expected: &Expected) -> bool {
    row.path.as_slice() == expected.0.as_bytes() && row.bytes.as_deref() == expected.1
}

/// Whether rows are what is expected.
pub(crate) fn are_rows(rows: &[FolderRow], expected: &[Expected]) -> bool {
    for (row, expected) in rows.iter().zip(expected) {
        if !is_row(row, expected) {
            return false;
        }
    }
    rows.len() == expected.len()
}

/// Whether what was made is what is expected.
fn is_made(made: &MadeEntry, expected: &Expected) -> bool {
    match (made, expected.1) {
        (MadeEntry::Folder(name), None) => name.as_str() == expected.0,
        (MadeEntry::File(name, bytes), Some(wanted)) => {
            name.as_str() == expected.0 && bytes.as_slice() == wanted
        }
        _ => false,
    }
}

/// The image of so many blocks of this size into which rows are packed; none where they aren't.
pub(crate) fn packed(alloc: Global, size: u32, count: u32, rows: &[PackRow<'_>]) -> Option<Image> {
    if !geometry_ok(size, count) {
        return None;
    }
    match pack(alloc, size, count, rows) {
        Ok(bytes) => Image::new(bytes, size).ok(),
        Err(_) => None,
    }
}

/// An image of 8 blocks of 512 bytes with what a folder's rows have.
fn image_of(alloc: Global, folder: &[FolderRow]) -> Option<Image> {
    match rows_to_pack(alloc, folder, MOST_HELD) {
        Ok(rows) => packed(alloc, 512, 8, &rows),
        Err(_) => None,
    }
}

/// The image into which the folder `d` is packed.
fn image_of_folder(alloc: Global, host: &mut MemoryHost) -> Option<Image> {
    match folder_rows(alloc, host, "d") {
        Ok(folder) => image_of(alloc, &folder),
        Err(_) => None,
    }
}

/// What an image's folder is refused for where it is made as the folder `out`.
fn refusal_of(alloc: Global, image: &Image, host: &mut MemoryHost) -> Option<Option<ExtractFault>> {
    match mount(alloc, image) {
        Ok(mounted) => Some(extract_rows(alloc, image, &mounted, &[], "out", host).err()),
        Err(_) => None,
    }
}

/// Whether the folder `d` is packed, and made again as the folder `out` of the same host, or refused so.
fn is_made_again(alloc: Global, host: &mut MemoryHost, refusal: Option<ExtractFault>) -> bool {
    match image_of_folder(alloc, host) {
        Some(image) => refusal_of(alloc, &image, host) == Some(refusal),
        None => false,
    }
}

/// Whether just the first of these were made.
fn are_first(entries: &[MadeEntry], count: usize, expected: &[Expected]) -> bool {
    for (made, expected) in entries.iter().zip(expected) {
        if !is_made(made, expected) {
            return false;
        }
    }
    entries.len() == count
}

/// Whether a host has made just the first of what is expected.
fn are_made(host: &MemoryHost, count: usize) -> bool {
    are_first(&host.made, count, &MADE)
}

/// Whether rows are those of the folder `d`.
fn are_all_rows(rows: &[FolderRow]) -> bool {
    are_rows(rows, &ROWS)
}

/// Whether the folder `d` of a host is read.
fn is_read(alloc: Global, host: &mut MemoryHost) -> bool {
    match folder_rows(alloc, host, "d") {
        Ok(rows) => are_all_rows(&rows),
        Err(_) => false,
    }
}

/// Whether that of the host with these is, and nothing refused.
fn folder_is_read(alloc: Global) -> bool {
    match host_with_folders(alloc) {
        Ok(mut host) => is_read(alloc, &mut host) && !host.has_refused,
        Err(_) => false,
    }
}

#[test]
fn a_folder_in_memory_is_read(rt: HostRuntime) {
    assert!(rt; folder_is_read(rt.alloc()));
}

/// Names of this host that are no folder's.
const NO_FOLDERS: [&str; 4] = ["e", "d/a", "d/", "d/b/c/"];

/// Whether a name is refused as that of a folder.
fn is_no_folder(alloc: Global, host: &mut MemoryHost, name: &str) -> bool {
    match folder_rows(alloc, host, name) {
        Ok(_) => false,
        Err(fault) => fault == FolderFault::CannotRead && host.has_refused,
    }
}

/// Whether this host refuses it.
fn refuses(alloc: Global, name: &str) -> bool {
    match host_with_folders(alloc) {
        Ok(mut host) => is_no_folder(alloc, &mut host, name),
        Err(_) => false,
    }
}

#[test]
fn what_is_no_folder_is_refused(rt: HostRuntime) {
    for name in &NO_FOLDERS {
        assert!(rt; refuses(rt.alloc(), name));
    }
}

/// Whether the folder of this host is packed and made again, and its files stay.
fn makes_again(alloc: Global) -> bool {
    match host_with_folders(alloc) {
        Ok(mut host) => {
            is_made_again(alloc, &mut host, None) && are_made(&host, 5) && host.files.len() == 5
        }
        Err(_) => false,
    }
}

#[test]
fn what_is_packed_is_made_again(rt: HostRuntime) {
    assert!(rt; makes_again(rt.alloc()));
}

/// Whether a host that refuses what stands behind so many others has made just these.
fn stops_behind(alloc: Global, others: usize) -> bool {
    let Ok(mut host) = host_with_folders(alloc) else {
        return false;
    };
    host.failing = Failing::Behind(others);
    is_made_again(alloc, &mut host, Some(ExtractFault::CannotWrite))
        && host.has_refused
        && are_made(&host, others)
}

#[test]
fn what_was_made_before_a_refusal_is_known(rt: HostRuntime) {
    for others in 0..5 {
        assert!(rt; stops_behind(rt.alloc(), others));
    }
}
