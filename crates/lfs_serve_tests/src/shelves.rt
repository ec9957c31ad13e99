//! A folder in memory, read as rows.

use crate::memory_folders::{Expected, are_rows};
use lfs_extract::{FolderFault, folder_rows};
use lfs_host::{Folders, HostKind, Known, ListFault, ReadFault};
use std::alloc::{AllocError, Global};

/// A name with what is under it: its kind, its bytes, and the names in it.
#[derive(Clone, Copy)]
struct Item(
    &'static str,
    HostKind,
    &'static [u8],
    &'static [&'static str],
);

/// A host that has these.
#[derive(Drop)]
struct Shelf<'a>(&'a [Item]);

impl Shelf<'_> {
    fn find(&self, name: &str) -> Option<Item> {
        for item in self.0 {
            let Item(its_name, ..) = item;
            if *its_name == name {
                return Some(*item);
            }
        }
        None
    }
}

fn texts(alloc: Global, names: &[&str]) -> Result<Vec<String>, AllocError> {
    let mut texts = Vec::new(alloc);
    for name in names {
        texts.push(name.to_string(alloc)?)?;
    }
    Ok(texts)
}

impl Known for Shelf<'_> {}

impl Folders for Shelf<'_> {
    fn kind(&mut self, name: &str) -> Result<HostKind, ReadFault> {
        match self.find(name) {
            Some(Item(_, kind, ..)) => Ok(kind),
            None => Ok(HostKind::Missing),
        }
    }

    fn list(&mut self, alloc: Global, name: &str) -> Result<Vec<String>, ListFault> {
        match self.find(name) {
            Some(Item(.., names)) => texts(alloc, names).map_err(|_| ListFault::Memory),
            None => Err(ListFault::CannotRead),
        }
    }

    fn read_entry(&mut self, alloc: Global, name: &str, _most: u64) -> Result<Vec<u8>, ReadFault> {
        match self.find(name) {
            Some(Item(_, _, bytes, _)) => Vec::from_slice(alloc, bytes).map_err(
                |_| ReadFault::Memory,
            ),
            None => Err(ReadFault::CannotRead),
        }
    }
}

// a folder `d` with two files and a folder, in which a file is
const TREE: [Item; 5] = [
    Item("d", HostKind::Folder, b"", &["b", "a", "ab"]),
    Item("d/a", HostKind::File, b"one", &[]),
    Item("d/ab", HostKind::Folder, b"", &["c"]),
    Item("d/ab/c", HostKind::File, b"", &[]),
    Item("d/b", HostKind::File, b"two", &[]),
];

// its rows
const ROWS: [Expected; 5] = [
    ("/", None),
    ("/ab", None),
    ("/ab/c", Some(b"")),
    ("/a", Some(b"one")),
    ("/b", Some(b"two")),
];

/// Whether the folder `d` of a host is read as these rows.
fn is_read(alloc: Global, items: &[Item], expected: &[Expected]) -> bool {
    match folder_rows(alloc, &mut Shelf(items), "d") {
        Ok(rows) => are_rows(&rows, expected),
        Err(_) => false,
    }
}

#[test]
fn rows_stand_in_the_order_of_paths(rt: HostRuntime) {
    assert!(rt; is_read(rt.alloc(), &TREE, &ROWS));
}

/// A folder, the names in it, a path with what it is, and what the folder `d` of a host that has these is refused for.
type Unread = (
    &'static str,
    &'static [&'static str],
    &'static str,
    HostKind,
    FolderFault,
);

const UNREAD: [Unread; 5] = [
    ("d", &["a"], "d/a", HostKind::Other, FolderFault::HostEntry),
    (
        "d",
        &["a", ".."],
        "d/a",
        HostKind::File,
        FolderFault::HostName,
    ),
    (
        "d",
        &["a", "a"],
        "d/a",
        HostKind::File,
        FolderFault::CannotRead,
    ),
    ("d", &["b"], "d/a", HostKind::File, FolderFault::CannotRead),
    ("e", &["a"], "e/a", HostKind::File, FolderFault::CannotRead),
];

/// Whether such a folder is refused so.
fn is_refused(alloc: Global, row: &Unread) -> bool {
    let (folder, names, path, kind, fault) = *row;
    let items = [
        Item(folder, HostKind::Folder, b"", names),
        Item(path, kind, b"", &[]),
    ];
    folder_rows(alloc, &mut Shelf(&items), "d").err() == Some(fault)
}

#[test]
fn folders_are_refused(rt: HostRuntime) {
    for row in &UNREAD {
        assert!(rt; is_refused(rt.alloc(), row));
    }
}
