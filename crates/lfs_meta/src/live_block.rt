//! The live block of a pair.

ghost use Rattle.std.specs.Prelude.{◌≡◌, ◌≤◌, length};
ghost use Rattle.lfs_meta.specs.LiveBlock.{committed_log, is_later, live_block, live_log, revision};

use byteorder::{ByteOrder, LittleEndian};
use lfs_tag::Log;

/// A block's revision.
///
/// Source: SPEC.md, "Metadata pairs".
pub fn revision(block: &[u8]) -> u32
    requires { 4 ≤ length block.now }
    ensures { result ≡ revision block.now }
{
    LittleEndian::read_u32(block)
}

/// Whether revision `a` comes after `b`, where revisions are counted around 2^32.
///
/// Source: SPEC.md, "Metadata pairs".
pub(crate) fn is_later(a: u32, b: u32) -> bool
    ensures { result ≡ is_later a b }
{
    let ahead = a.wrapping_sub(b);
    1 <= ahead && ahead < 1 << 31
}

/// Which block of a pair is live, with its log.
///
/// Source: SPEC.md, "Metadata pairs".
#[derive(Drop)]
pub enum LiveBlock<'a> {
    /// The first one.
    First(Log<'a>),
    /// The second one.
    Second(Log<'a>),
    /// No block has a commit.
    Neither,
}

/// The log of a block, where it has a commit.
fn committed(block: &[u8]) -> Option<Log<'_>>
    requires { 4 ≤ length block.now }
    ensures { result ≡ committed_log block.now }
{
    let log = Log::read(block);
    if log.commits > 0 { Some(log) } else { None }
}

impl<'a> LiveBlock<'a> {
    ghost use Rattle.std.specs.Prelude.{◌≡◌, ◌≤◌, length};
    ghost use Rattle.lfs_meta.specs.LiveBlock.{live_block};

    /// The live block of two. The second one is tried first where its revision is the later one, else the first one.
    ///
    /// Source: SPEC.md, "Metadata pairs"; the first block where neither is later: own.
    pub fn of(first: &'a [u8], second: &'a [u8]) -> LiveBlock<'a>
        requires first { 4 ≤ length first.now }
        requires second { 4 ≤ length second.now }
        ensures { result ≡ live_block first.now second.now }
    {
        if is_later(revision(second), revision(first)) {
            match committed(second) {
                Some(log) => LiveBlock::Second(log),
                None => match committed(first) {
                    Some(log) => LiveBlock::First(log),
                    None => LiveBlock::Neither,
                },
            }
        } else {
            match committed(first) {
                Some(log) => LiveBlock::First(log),
                None => match committed(second) {
                    Some(log) => LiveBlock::Second(log),
                    None => LiveBlock::Neither,
                },
            }
        }
    }
}

/// The log of the live block of a pair, `None` where no block has a commit. The second block is tried first where its
/// revision is the later one, else the first one.
///
/// Source: SPEC.md, "Metadata pairs"; the first block where neither is later: own.
pub(crate) fn live<'a>(first: &'a [u8], second: &'a [u8]) -> Option<Log<'a>>
    requires first { 4 ≤ length first.now }
    requires second { 4 ≤ length second.now }
    ensures { result ≡ live_log (live_block first.now second.now) }
{
    match LiveBlock::of(first, second) {
        LiveBlock::First(log) | LiveBlock::Second(log) => Some(log),
        LiveBlock::Neither => None,
    }
}
