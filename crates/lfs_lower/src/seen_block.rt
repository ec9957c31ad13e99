//! A block as both versions read it.

ghost use Rattle.std.specs.Prelude.{◌≡◌, ◌≤◌, length};
ghost use Rattle.lfs_lower.specs.Commits.{commits_from};
ghost use Rattle.lfs_lower.specs.Told.{stated_in};
ghost use Rattle.lfs_lower.specs.Version.{block_seen};

use crate::seen_commit::commit_at;
use crate::told::Told;
use lfs_block::crc32;
use lfs_tag::{CHECKSUM_START, Log};

/// What commits state.
#[derive(Clone, Copy)]
pub(crate) struct Stated {
    /// Whether there are any.
    pub(crate) is_there: bool,
    /// What their tags tell.
    pub(crate) told: Told,
}

/// A block as both versions read it.
#[derive(Clone, Copy)]
pub(crate) struct BlockSeen {
    /// Its number in its pair.
    pub(crate) number: u32,
    /// Whether its log has a commit.
    pub(crate) has_log: bool,
    /// What the commits behind that state.
    pub(crate) unread: Stated,
}

/// What the commits at the front of `bytes` state, behind the word `prev`, where `sum` is the checksum of what the first covers
/// before them.
pub(crate) fn stated_from(mut sum: u32, mut prev: u32, bytes: &[u8]) -> Stated
    ensures { result ≡ stated_in (commits_from sum prev bytes.now) }
{
    let mut rest = bytes;
    let mut told = Told::nothing();
    let mut is_there = false;
    while let Some(commit) = commit_at(sum, prev, told, rest) {
        sum = CHECKSUM_START;
        prev = commit.next;
        told = commit.told;
        rest = commit.rest;
        is_there = true;
    }
    Stated { is_there, told }
}

/// A block of a pair, by its number there, as both versions read it.
pub(crate) fn block_seen(number: u32, block: &[u8]) -> BlockSeen
    requires { 4 ≤ length block.now }
    ensures { result ≡ block_seen number block.now }
{
    let log = Log::read(block);
    let (revision, _) = block.split_at(4);
    let (_, behind) = block.split_at(log.end);
    let has_log = log.commits > 0;
    let sum = if has_log {
        CHECKSUM_START
    } else {
        crc32(CHECKSUM_START, revision)
    };
    BlockSeen {
        number,
        has_log,
        unread: stated_from(sum, log.last, behind),
    }
}
