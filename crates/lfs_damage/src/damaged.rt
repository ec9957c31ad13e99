//! Pairs of which an older state is read, since a later commit is damaged.

ghost use Rattle.std.specs.Prelude.{◌≡◌, ◌≤◌, length};
ghost use Rattle.lfs_tag.specs.LogSeen.{is_erased};
ghost use Rattle.lfs_meta.specs.LiveBlock.{is_later};
ghost use Rattle.lfs_damage.specs.Damage.{ends_damaged, fills, is_damaged, is_damaged_pair, is_passed_over, stands_after};
ghost use Rattle.lfs_damage.specs.Seen.{end_found};

use crate::closing::damaged_at;
use crate::ended::{Ended, end_from, log_end};
use lfs_block::{Blocks, Image};
use lfs_meta::revision;
use lfs_tag::CHECKSUM_START;

/// Whether each byte is 0xff.
fn is_erased(bytes: &[u8]) -> bool
    ensures { result ≡ is_erased bytes.now }
{
    bytes.iter().all(|byte| *byte == 0xff)
}

/// Whether commits that stand after a damaged one are left of an earlier log, in a block of `size` bytes.
fn fills(size: usize, end: Ended<'_>) -> bool
    ensures { result ≡ fills size (end_found end.entry) }
{
    end.has_commits && !(is_erased(end.rest) && size / 8 <= end.rest.len())
}

/// Whether a damaged commit stands after these, in a block of `size` bytes.
fn stands_after(size: usize, end: Ended<'_>) -> bool
    ensures { result ≡ stands_after size (end_found end.entry) }
{
    match damaged_at(end.sum, end.prev, end.rest) {
        Some(commit) => !fills(size, end_from(CHECKSUM_START, commit.next, commit.rest)),
        None => false,
    }
}

/// Whether a damaged commit stands after the log of a block, as a device reads it or as version 2.0 does: one that is whole up to its closing tag, but has a wrong
/// checksum. A commit that the power cut off isn't one, nor is what a device that doesn't erase leaves of an earlier log after such a
/// commit.
///
/// Source: littlefs disk version 2.1 for the commits; which are told of: own.
pub fn ends_damaged(by_device: bool, block: &[u8]) -> bool
    requires { 4 ≤ length block.now }
    ensures { result ≡ ends_damaged by_device block.now }
{
    stands_after(block.len(), log_end(by_device, block))
}

/// Whether one is passed over in two blocks, of which the first has the later revision.
fn is_passed_over(by_device: bool, later: &[u8], earlier: &[u8]) -> bool
    requires later { 4 ≤ length later.now }
    requires earlier { 4 ≤ length earlier.now }
    ensures { result ≡ is_passed_over by_device later.now earlier.now }
{
    let end = log_end(by_device, later);
    stands_after(later.len(), end) || !end.has_commits && ends_damaged(by_device, earlier)
}

/// Whether revision `a` comes after `b`, where revisions are counted around 2^32.
fn is_later(a: u32, b: u32) -> bool
    ensures { result ≡ is_later a b }
{
    let ahead = a.wrapping_sub(b);
    1 <= ahead && ahead < 1 << 31
}

/// Whether an older state of two blocks is read, since a later commit is damaged.
fn is_damaged(by_device: bool, first: &[u8], second: &[u8]) -> bool
    requires first { 4 ≤ length first.now }
    requires second { 4 ≤ length second.now }
    ensures { result ≡ is_damaged by_device first.now second.now }
{
    if is_later(revision(second), revision(first)) {
        is_passed_over(by_device, second, first)
    } else {
        is_passed_over(by_device, first, second)
    }
}

/// Whether an older state of a pair of an image is read, since a later commit is damaged: a damaged commit stands after the log of the live
/// block, or at the front of the block with the later revision, if that has no commit. A block past the end is none.
///
/// Source: littlefs disk version 2.1 for the commits; which are told of: own.
pub fn is_damaged_pair(by_device: bool, image: &Image, pair: (u32, u32)) -> bool
    ensures { result ≡ is_damaged_pair by_device image.now.disk pair }
{
    let _fits_the_limits = image.size();
    let count = image.count();
    if pair.0 >= count || pair.1 >= count {
        return false;
    }
    is_damaged(by_device, image.block(pair.0), image.block(pair.1))
}
