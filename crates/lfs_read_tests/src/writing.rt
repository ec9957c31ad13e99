//! Pairs as they are written. The blocks' bytes were put together by a program of their own, tag by tag.

ghost use Rattle.std.specs.Prelude.{◌≡◌, ◌<◌, ◌≤◌, length, IfSome};
ghost use Rattle.std.specs.List.{AllByRecursion};
ghost use Rattle.lfs_meta.specs.Weighing.{weights};
ghost use Rattle.lfs_meta.specs.Complete.{IsComplete};

use crate::images::{Head, image_of, pair_of};
use crate::samples::block_of;
use lfs_block::{Blocks, Image};
use lfs_meta::{Entry, Part, Tail, read_pair, weight};
use lfs_pair::{first_block, rewrite};
use std::alloc::Global;

// Revision 0xffffffff: a file `a` with a skip list and two attributes, a directory, a file `z` with contents.
pub(crate) const THREE_ENTRIES: &[u8] = b"\
    \xff\xff\xff\xff\xff\xef\xff\xfea 0\x00\x09\x07\x00\x00\x00\xe0\x0b\x00\x00\x11 \x00\x0bone\
    \x06@\x00\x037`\x04\x03dir  \x00\x0b\x04\x00\x00\x00\x05\x00\x00\x00 \x10\x0c\x09z \x00\x00\
    \x04hello\x10\x10\x00\x04\xff`\x0f\xf4\x06K=\xbb)\xff\xff\xff";
// The same behind revision 0, with a hard tail of 6 and 7 and a delta.
const REWRITTEN: &[u8] = b"\
    \x00\x00\x00\x00\xff\xef\xff\xfea 0\x00\x09\x07\x00\x00\x00\xe0\x0b\x00\x00\x11 \x00\x0bone\
    \x06@\x00\x037`\x04\x03dir  \x00\x0b\x04\x00\x00\x00\x05\x00\x00\x00 \x10\x0c\x09z \x00\x00\
    \x04hello\x10\x10\x00\x04\xffP\x1f\xf4\x09\x06\x00\x00\x00\x07\x00\x00\x00\x1f\xe0\x00\x04\
    \x00\x00\xf0O\x02\x00\x00\x00\x03\x00\x00\x00/\xf0\x00\x06\xba\xec\x9e\xd3\xff\xff\xff\xff\
    \xff\xff";
// The same behind revision 1, with a soft tail of 6 and 7.
const FIRST_BLOCK: &[u8] = b"\
    \x01\x00\x00\x00\xff\xef\xff\xfea 0\x00\x09\x07\x00\x00\x00\xe0\x0b\x00\x00\x11 \x00\x0bone\
    \x06@\x00\x037`\x04\x03dir  \x00\x0b\x04\x00\x00\x00\x05\x00\x00\x00 \x10\x0c\x09z \x00\x00\
    \x04hello\x10\x10\x00\x04\xffP\x0f\xf4\x09\x06\x00\x00\x00\x07\x00\x00\x000\x00\x00\x02\xc1\
    \x8a\xd6\xca\xff\xff\xff\xff\xff\xff";
// Revision 0xfffffffe: a file `z`.
const LAST_BUT_ONE: &[u8] =
    b"\xfe\xff\xff\xff\xff\xef\xff\xfez \x00\x00\x01p\x1f\xfc\x04(\xd8M\xf6";

const DELTA: [u8; 12] = [0, 0, 0xf0, 0x4f, 2, 0, 0, 0, 3, 0, 0, 0];

/// The bytes that at most 1,000 entries take of a block.
pub(crate) fn weights(entries: &[Entry]) -> u32
    requires { length entries.now ≤ 1000 }
    ensures { result ≡ weights entries.now }
{
    let mut sum = 0;
    for entry in entries {
        sum += weight(entry);
    }
    sum
}

/// The part of an image's pair, where its entries fit into a block of 256 bytes.
pub(crate) fn small_part(alloc: Global, image: &Image) -> Option<Part>
    requires { 1 < image.now.disk.count }
    ensures complete { IfSome result (λ part. AllByRecursion IsComplete part.1.entries) }
    ensures few { IfSome result (λ part. length part.1.entries ≤ 1000) }
    ensures room { IfSome result (λ part. weights part.1.entries ≤ 216) }
{
    match read_pair(alloc, image, (0, 1)) {
        Ok(part) if part.entries.len() <= 1_000 && weights(&part.entries) <= 216 => Some(part),
        _ => None,
    }
}

/// Whether a block of 256 bytes begins so, and is erased behind that.
fn is_block(alloc: Global, block: &[u8], front: &[u8]) -> bool {
    match block_of(alloc, 256, front) {
        Ok(wanted) => block == wanted.as_slice(),
        Err(_) => false,
    }
}

/// Whether the pair of an image is rewritten with its own entries, a hard tail and a delta.
fn is_rewritten(alloc: Global, image: &Image) -> bool {
    let _fits_the_limits = image.size();
    let Some(part) = small_part(alloc, image) else {
        return false;
    };
    match rewrite(alloc, image, (0, 1), &part.entries, Tail::Hard(6, 7), DELTA) {
        Ok((number, bytes)) => number == 1 && is_block(alloc, &bytes, REWRITTEN),
        Err(_) => false,
    }
}

/// The image of a pair: the three entries and a last byte of 0, and revision 0xfffffffe.
fn rewritten_pair(alloc: Global) -> Option<Image> {
    let heads: [Head<'_>; 3] = [(0, THREE_ENTRIES), (255, b"\0"), (256, LAST_BUT_ONE)];
    image_of(alloc, 256, 512, &heads)
}

/// Whether this pair is rewritten.
fn other_block_is_rewritten(alloc: Global) -> bool {
    match rewritten_pair(alloc) {
        Some(image) => is_rewritten(alloc, &image),
        None => false,
    }
}

#[test]
fn rewrites_the_block_that_is_not_live(rt: HostRuntime) {
    assert!(rt; other_block_is_rewritten(rt.alloc()));
}

/// Whether the first block of a new pair gets the entries of an image's, and a soft tail.
fn is_first(alloc: Global, image: &Image) -> bool {
    let _fits_the_limits = image.size();
    let Some(part) = small_part(alloc, image) else {
        return false;
    };
    match first_block(alloc, 256, &part.entries, Tail::Soft(6, 7)) {
        Some(block) => is_block(alloc, &block, FIRST_BLOCK),
        None => false,
    }
}

/// Whether that of the three entries is.
fn block_is_first(alloc: Global) -> bool {
    match pair_of(alloc, THREE_ENTRIES, b"") {
        Some(image) => is_first(alloc, &image),
        None => false,
    }
}

#[test]
fn first_block_of_a_new_pair(rt: HostRuntime) {
    assert!(rt; block_is_first(rt.alloc()));
}
