//! A pair as both versions read it.

ghost use Rattle.std.specs.Prelude.{◌≡◌, ◌≤◌, length};
ghost use Rattle.lfs_meta.specs.LiveBlock.{is_later};
ghost use Rattle.lfs_lower.specs.Version.{first_live, pair_seen, root_seen};

use crate::seen_block::{BlockSeen, block_seen};
use lfs_meta::revision;

/// A pair as both versions read it.
#[derive(Clone, Copy)]
pub(crate) struct PairSeen {
    /// Whether version 2.0 reads a commit of either block.
    pub(crate) is_read: bool,
    /// The block that a later version takes for the live one.
    pub(crate) live: BlockSeen,
}

/// Whether revision `a` comes after `b`, where revisions are counted around 2^32.
pub(crate) fn is_later(a: u32, b: u32) -> bool
    ensures { result ≡ is_later a b }
{
    let ahead = a.wrapping_sub(b);
    1 <= ahead && ahead < 1 << 31
}

/// The first block where a later version finds a commit in it, else the second one.
fn first_live(a: BlockSeen, b: BlockSeen) -> BlockSeen
    ensures { result ≡ first_live a b }
{
    if a.has_log || a.unread.is_there { a } else { b }
}

/// A pair, as both versions read it.
fn pair_seen(first: &[u8], second: &[u8]) -> PairSeen
    requires first { 4 ≤ length first.now }
    requires second { 4 ≤ length second.now }
    ensures { result ≡ pair_seen first.now second.now }
{
    let first_seen = block_seen(0, first);
    let second_seen = block_seen(1, second);
    let live = if is_later(revision(second), revision(first)) {
        first_live(second_seen, first_seen)
    } else {
        first_live(first_seen, second_seen)
    };
    PairSeen {
        is_read: first_seen.has_log || second_seen.has_log,
        live,
    }
}

/// The first two blocks of an image as both versions read them, of `size` bytes each; `None` where there aren't two.
#[tactic(auto, unfolding(crate::specs::Version::root_seen))]
pub(crate) fn root_seen(image: &[u8], size: u32) -> Option<PairSeen>
    ensures { result ≡ root_seen image.now size }
{
    let size = size as usize;
    if size < 4 || image.len() / 2 < size {
        return None;
    }
    let (first, behind) = image.split_at(size);
    let (second, _) = behind.split_at(size);
    Some(pair_seen(first, second))
}
