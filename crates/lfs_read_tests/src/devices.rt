//! Images as devices read them.

use crate::images::image_of;
use lfs_block::{Blocks, Image};
use lfs_fs::mount;
use lfs_lower::{all_can, join, later_part_at, lower_pair, own_bytes, put_parts};
use lfs_settle::{read_as, read_by_device, read_within};
use std::alloc::{AllocError, Global};

// the first block as version 2.1 formats it, with a forward checksum in front of the tag that closes the commit
const LATER: &[u8] = b"\x01\x00\x00\x00\xf0\x0f\xff\xf7littlefs\
\x2f\xe0\x00\x10\x01\x00\x02\x00\x00\x02\x00\x00\x08\x00\x00\x00\
\xff\x00\x00\x00\xff\xff\xff\x7f\xfe\x03\x00\x00\x7f\xef\xfc\x10\
\x10\x00\x00\x00\xe5\x39\x4c\xc0\x0f\xf0\x00\x0c\x0d\x1c\x55\x55";

// the same as version 2.0 formats it
const LOWERED: &[u8] = b"\x01\x00\x00\x00\xf0\x0f\xff\xf7littlefs\
\x2f\xe0\x00\x10\x00\x00\x02\x00\x00\x02\x00\x00\x08\x00\x00\x00\
\xff\x00\x00\x00\xff\xff\xff\x7f\xfe\x03\x00\x00\x70\x1f\xfc\x08\
\xc8\x95\xba\xf9";

// the blocks 0 and 2 of an image of 16 blocks whose superblock was expanded: the last one has other attributes, and another limit on names
const COPY: &[u8] = b"\x05\x00\x00\x00\xf0\x0f\xff\xf7littlefs\
\x2f\xe0\x00\x10\x00\x00\x02\x00\x00\x02\x00\x00\x10\x00\x00\x00\
\xff\x00\x00\x00\xff\xff\xff\x7f\xfe\x03\x00\x00\x10\x00\x00\x1b\
old\x00\x30\x00\x07gone\x50\x3f\xfc\x0c\x02\x00\x00\x00\x03\x00\x00\x00\
\x30\x10\x00\x0d\x35\x9d\x47\x88";

const LAST: &[u8] = b"\x01\x00\x00\x00\xf0\x0f\xff\xf7littlefs\
\x2f\xe0\x00\x10\x00\x00\x02\x00\x00\x02\x00\x00\x10\x00\x00\x00\
\x64\x00\x00\x00\xff\xff\xff\x7f\xfe\x03\x00\x00\x10\x00\x00\x1b\
new\x30\x00\x04\x02\x61\x20\x00\x00\x02one\x20\x00\x0c\x02\x62\x20\x00\x00\x02two\
\x70\x1f\xf4\x12\x77\x4c\x19\x92";

// what the blocks 0 and 2 of the image with one superblock begin with, the blocks beside which are erased
const FIRST_PART: &[u8] = b"\x05\x00\x00\x00\xf0\x0f\xff\xf7littlefs\
\x2f\xe0\x00\x10\x00\x00\x02\x00\x00\x02\x00\x00\x10\x00\x00\x00\x64";

const SECOND_PART: &[u8] = b"\x01\x00\x00\x00\xff\xef\xff\xfe\x61\x20\x00\x00\x02one\
\x20\x00\x04\x02\x62\x20\x00\x00\x02two\x70\x1f\xf8\x13\x97\x16\x06\x0c";

/// Whether bytes begin so at a place.
fn begins(bytes: &[u8], at: usize, front: &[u8]) -> bool {
    match bytes.get(at..) {
        Some(rest) => rest.starts_with(front),
        None => false,
    }
}

/// Whether the first pair of an image becomes one of version 2.0.
fn lowers(alloc: Global, image: Image) -> bool {
    let mut image = image;
    if image.count() < 2 || lower_pair(alloc, &mut image, (0, 1)).is_err() {
        return false;
    }
    let bytes = image.into_bytes();
    begins(&bytes, 0, LOWERED) && begins(&bytes, LOWERED.len(), &[0xff; 12])
}

/// Whether that of version 2.1 does.
fn later_is_lowered(alloc: Global) -> bool {
    match image_of(alloc, 512, 4_096, &[(0, LATER)]) {
        Some(image) => lowers(alloc, image),
        None => false,
    }
}

#[test]
fn image_of_version_2_1_is_lowered(rt: HostRuntime) {
    assert!(rt; later_is_lowered(rt.alloc()));
}

/// Whether the part that version 2.1 reads of the first pair is a superblock alone, and can be put back. Takes memory.
fn is_put_back(alloc: Global, image: Image) -> Result<bool, AllocError> {
    let mut image = image;
    if image.count() < 2 {
        return Ok(false);
    }
    let Some(part) = later_part_at(alloc, &image, (0, 1))? else {
        return Ok(false);
    };
    let is_alone = part.entries.len() == 1;
    let parts = vec![in alloc; part]?;
    if !all_can(&parts, image.size(), image.count()) {
        return Ok(false);
    }
    put_parts(alloc, &mut image, &parts)?;
    Ok(is_alone && mount(alloc, &image).is_ok())
}

/// Whether that of the image of version 2.1 can.
fn later_part_is_put_back(alloc: Global) -> bool {
    match image_of(alloc, 512, 4_096, &[(0, LATER)]) {
        Some(image) => is_put_back(alloc, image).unwrap_or(false),
        None => false,
    }
}

#[test]
fn part_of_version_2_1_is_put_back(rt: HostRuntime) {
    assert!(rt; later_part_is_put_back(rt.alloc()));
}

/// Whether an image gets one superblock of two.
fn joins(alloc: Global, image: Image) -> bool {
    let mut image = image;
    if join(alloc, &mut image).is_err() {
        return false;
    }
    let bytes = image.into_bytes();
    let is_first = begins(&bytes, 0, FIRST_PART) && begins(&bytes, 512, &[0xff; 512]);
    is_first && begins(&bytes, 1_024, SECOND_PART) && begins(&bytes, 1_536, &[0xff; 512])
}

/// Whether the one whose superblock was expanded does.
fn expanded_is_joined(alloc: Global) -> bool {
    match image_of(alloc, 512, 8_192, &[(0, COPY), (1_024, LAST)]) {
        Some(image) => joins(alloc, image),
        None => false,
    }
}

#[test]
fn expanded_superblock_is_joined(rt: HostRuntime) {
    assert!(rt; expanded_is_joined(rt.alloc()));
}

/// Whether bytes of blocks of 512 bytes are those of an image that mounts once they are read as a device does.
fn mounts_by_device(alloc: Global, bytes: Vec<u8>) -> bool {
    let Ok(read) = read_by_device(alloc, 512, bytes) else {
        return false;
    };
    match Image::new(read, 512) {
        Ok(image) => mount(alloc, &image).is_ok(),
        Err(_) => false,
    }
}

/// Whether those of the image of version 2.1 are.
fn later_is_read(alloc: Global) -> bool {
    match image_of(alloc, 512, 4_096, &[(0, LATER)]) {
        Some(image) => mounts_by_device(alloc, image.into_bytes()),
        None => false,
    }
}

#[test]
fn bytes_are_read_as_a_device_does(rt: HostRuntime) {
    assert!(rt; later_is_read(rt.alloc()));
}

/// Whether of bytes with an image of eight blocks of 512 bytes before others that image is read, and as it is the same bytes.
fn begins_with_image(alloc: Global, bytes: Vec<u8>) -> bool {
    let len = bytes.len();
    let Ok(as_it_is) = read_as(alloc, false, 512, bytes) else {
        return false;
    };
    let is_whole = as_it_is.len() == len;
    match read_within(alloc, true, 512, as_it_is) {
        Ok(image) => is_whole && image.len() == 4_096,
        Err(_) => false,
    }
}

/// Whether of an image of version 2.0 with two blocks after it the image is left.
fn has_its_own(alloc: Global) -> bool {
    match image_of(alloc, 512, 5_120, &[(0, LOWERED)]) {
        Some(image) => match own_bytes(alloc, 512, image.into_bytes()) {
            Ok(own) => own.len() == 4_096,
            Err(_) => false,
        },
        None => false,
    }
}

/// Whether of the image of version 2.1 with two blocks after it the image is read.
fn later_is_read_within(alloc: Global) -> bool {
    match image_of(alloc, 512, 5_120, &[(0, LATER)]) {
        Some(image) => begins_with_image(alloc, image.into_bytes()),
        None => false,
    }
}

#[test]
fn image_is_read_of_longer_bytes(rt: HostRuntime) {
    assert!(rt; has_its_own(rt.alloc()));
    assert!(rt; later_is_read_within(rt.alloc()));
}
