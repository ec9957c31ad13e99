//! An image that a device left unfinished, settled.

use crate::images::image_of;
use lfs_block::Image;
use lfs_settle::settle;
use std::alloc::Global;

// the logs of the blocks 0, 2 and 4 of an image of 6 blocks of 256 bytes: /c was being moved to /b, and no entry names the directory in the
// blocks 2 and 3
const ROOT: &[u8] =
    b"\x01\x00\x00\x00\xf0\x0f\xff\xf7littlefs/\xe0\x00\x10\x00\x00\x02\x00\x00\x01\x00\x00\x06\x00\x00\
\x00\xff\x00\x00\x00\xff\xff\xff\x7f\xfe\x03\x00\x00 \x00\x04\x19a \x00\x00\x02one \x00\x0c\x02b \
\x00\x00\x02two \x00\x04\x02c \x00\x00\x02two 0\x1c\x02d  \x00\x09\x04\x00\x00\x00\x05\x00\x00\x00@\
\x0f\xec\x00\x02\x00\x00\x00\x03\x00\x00\x00\x1f\xf0\x00\x04\x00\x0c\xf0O\x00\x00\x00\x00\x01\x00\
\x00\x00/\xf0\x00\x03l\x07Y\xe7";

const LOST: &[u8] =
    b"\x01\x00\x00\x00\xff\xef\xff\xfex \x00\x00\x05gone@\x1f\xfc\x0c\x04\x00\x00\x00\x05\x00\x00\x000\x00\
\x00\x07\xdb\xbd\xe2\xea";

const KEPT: &[u8] = b"\x01\x00\x00\x00\xff\xef\xff\xfey \x00\x00\x05keptp\x1f\xfc\x0f\x0b\xe3R\x04";

// the log of the block 0 of the settled one, whose block 1 is erased: /c and that directory are gone
const SETTLED: &[u8] =
    b"\x01\x00\x00\x00\xf0\x0f\xff\xf7littlefs/\xe0\x00\x10\x00\x00\x02\x00\x00\x01\x00\x00\x06\x00\x00\
\x00\xff\x00\x00\x00\xff\xff\xff\x7f\xfe\x03\x00\x00 \x00\x04\x19a \x00\x00\x02one \x00\x0c\x02b \
\x00\x00\x02two 0\x04\x02d  \x00\x09\x04\x00\x00\x00\x05\x00\x00\x00@\x0f\xf0\x00\x04\x00\x00\x00\
\x05\x00\x00\x000\x00\x00\x03\xed\x52\xcf\x42";

/// Whether bytes begin so at a place.
fn begins(bytes: &[u8], at: usize, front: &[u8]) -> bool {
    match bytes.get(at..) {
        Some(rest) => rest.starts_with(front),
        None => false,
    }
}

/// Whether an image is settled, and settled once more stays.
fn settles(alloc: Global, image: Image) -> bool {
    let mut image = image;
    if settle(alloc, &mut image).is_err() || settle(alloc, &mut image).is_err() {
        return false;
    }
    let bytes = image.into_bytes();
    begins(&bytes, 0, SETTLED) && begins(&bytes, 256, &[0xff; 256]) && begins(&bytes, 1_024, KEPT)
}

/// Whether the image of the logs is.
fn unfinished_is_settled(alloc: Global) -> bool {
    match image_of(alloc, 256, 1_536, &[(0, ROOT), (512, LOST), (1_024, KEPT)]) {
        Some(image) => settles(alloc, image),
        None => false,
    }
}

#[test]
fn unfinished_image_is_settled(rt: HostRuntime) {
    assert!(rt; unfinished_is_settled(rt.alloc()));
}
