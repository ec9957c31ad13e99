//! A host that records what is made on it.

use crate::memory_folders::packed;
use lfs_block::Image;
use lfs_extract::extract_rows;
use lfs_fs::{MOST_HELD, mount};
use lfs_host::{HostFault, Known, MakeFault, NewFolder};
use lfs_pack::PackRow;
use std::alloc::Global;

/// A folder, or a file with its bytes.
#[derive(Drop)]
struct Thing {
    name: String,
    is_folder: bool,
    bytes: Vec<u8>,
}

/// A host that has room for so many bytes more, and takes two at a time.
#[derive(Drop)]
struct Recorder {
    alloc: Global,
    things: Vec<Thing>,
    bytes: Vec<u8>,
    room: usize,
}

impl Known for Recorder {}

impl NewFolder for Recorder {
    fn make_folder(&mut self, name: &str) -> Result<(), MakeFault> {
        let Ok(name) = String::from_str(self.alloc, name) else {
            return Err(MakeFault::Other);
        };
        let folder = Thing {
            name,
            is_folder: true,
            bytes: Vec::new(self.alloc),
        };
        self.things.push(folder).map_err(|_| MakeFault::Other)
    }

    fn begin_file(&mut self, _name: &str) -> Result<(), MakeFault> {
        self.bytes.clear();
        Ok(())
    }

    fn fill(&mut self, bytes: &[u8]) -> Option<usize> {
        let count = bytes.len().min(self.room).min(2);
        if count == 0 || self.bytes.extend_from_slice(&bytes[..count]).is_err() {
            return None;
        }
        self.room -= count;
        Some(count)
    }

    fn end_file(&mut self, name: &str) -> Result<(), HostFault> {
        let Ok(name) = String::from_str(self.alloc, name) else {
            return Err(HostFault);
        };
        let Ok(bytes) = Vec::from_slice(self.alloc, &self.bytes) else {
            return Err(HostFault);
        };
        let file = Thing {
            name,
            is_folder: false,
            bytes,
        };
        self.things.push(file).map_err(|_| HostFault)
    }
}

/// An image whose root has a file with these bytes, `bytes`.
fn image_of_a_file(alloc: Global) -> Option<Image> {
    let root = PackRow {
        path: b"/",
        bytes: None,
        most: MOST_HELD,
        attributes: &[],
    };
    let file = PackRow {
        path: b"/f",
        bytes: Some(b"bytes"),
        most: MOST_HELD,
        attributes: &[],
    };
    packed(alloc, 256, 2, &[root, file])
}

/// Whether this is the folder `out`.
fn is_folder(thing: &Thing) -> bool {
    thing.is_folder && thing.name.as_str() == "out"
}

/// Whether this is the whole file in it.
fn is_file(thing: &Thing) -> bool {
    !thing.is_folder
        && thing.name.as_str() == "out/f"
        && thing.bytes.as_slice() == b"bytes".as_slice()
}

/// Whether these are the folder, and the file in it where it is made.
fn are_made(things: &[Thing], is_made: bool) -> bool {
    match things {
        [folder] => !is_made && is_folder(folder),
        [folder, file] => is_made && is_folder(folder) && is_file(file),
        _ => false,
    }
}

/// A host that has room for so many bytes.
fn empty(alloc: Global, room: usize) -> Recorder {
    Recorder {
        alloc,
        things: Vec::new(alloc),
        bytes: Vec::new(alloc),
        room,
    }
}

/// Whether a host makes the whole file of an image, or nothing of it.
fn makes(alloc: Global, image: &Image, host: &mut Recorder, is_made: bool) -> bool {
    let Ok(mounted) = mount(alloc, image) else {
        return false;
    };
    extract_rows(alloc, image, &mounted, &[], "out", host).is_ok() == is_made
        && are_made(&host.things, is_made)
}

/// Whether a host does with room for so many bytes.
fn makes_in(alloc: Global, room: usize, is_made: bool) -> bool {
    match image_of_a_file(alloc) {
        Some(image) => makes(alloc, &image, &mut empty(alloc, room), is_made),
        None => false,
    }
}

#[test]
fn a_file_is_made_complete_or_not_at_all(rt: HostRuntime) {
    assert!(rt; makes_in(rt.alloc(), 4, false));
    assert!(rt; makes_in(rt.alloc(), 5, true));
}
