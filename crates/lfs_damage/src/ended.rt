//! How far the commits go that bytes begin with.

ghost use Rattle.std.specs.Prelude.{◌≡◌, ◌≤◌, length, option_map};
ghost use Rattle.lfs_tag.specs.Found.{commit_found, commit_seen};
ghost use Rattle.lfs_lower.specs.Commits.{later_at};
ghost use Rattle.lfs_damage.specs.Damage.{device_end, end_from, log_end, plain_end};
ghost use Rattle.lfs_damage.specs.Seen.{end_found};

use crate::closing::closing_at;
use lfs_block::crc32;
use lfs_tag::{CHECKSUM_START, Committed, FIRST_WORD, Log, closed};

/// How far commits go.
#[derive(Clone, Copy)]
pub(crate) struct Ended<'a> {
    /// Whether there are any.
    pub(crate) has_commits: bool,
    /// The checksum with which the next one begins.
    pub(crate) sum: u32,
    /// The word that its first tag is XORed with.
    pub(crate) prev: u32,
    /// What stands after them.
    pub(crate) rest: &'a [u8],
}

/// The commit at the front of `bytes`, after the word `prev`, where `sum` is the checksum of what it covers before them.
fn commit_at<'a>(sum: u32, prev: u32, bytes: &'a [u8]) -> Option<Committed<'a>>
    ensures { option_map commit_found result ≡ option_map commit_seen (later_at sum prev bytes.now) }
{
    let closing = closing_at(sum, prev, bytes)?;
    closed(closing.right, closing.tag)
}

/// How far the commits at the front of `bytes` go, after the word `prev`, where `sum` is the checksum of what the first of them covers
/// before them.
pub(crate) fn end_from<'a>(mut sum: u32, mut prev: u32, bytes: &'a [u8]) -> Ended<'a>
    ensures { end_found result ≡ end_from sum prev bytes.entry.now }
{
    let mut rest = bytes;
    let mut has_commits = false;
    while let Some(commit) = commit_at(sum, prev, rest) {
        sum = CHECKSUM_START;
        prev = commit.next;
        rest = commit.rest;
        has_commits = true;
    }
    Ended {
        has_commits,
        sum,
        prev,
        rest,
    }
}

/// How far the log of a block goes, as a device reads it.
///
/// Source: littlefs disk version 2.1.
fn device_end(block: &[u8]) -> Ended<'_>
    requires { 4 ≤ length block.now }
    ensures { end_found result ≡ device_end block.now }
{
    let (revision, bytes) = block.split_at(4);
    end_from(crc32(CHECKSUM_START, revision), FIRST_WORD, bytes)
}

/// How far it goes, as version 2.0 reads it.
fn plain_end(block: &[u8]) -> Ended<'_>
    requires { 4 ≤ length block.now }
    ensures { end_found result ≡ plain_end block.now }
{
    let log = Log::read(block);
    let (revision, _) = block.split_at(4);
    let (_, rest) = block.split_at(log.end);
    let has_commits = log.commits > 0;
    let sum = if has_commits {
        CHECKSUM_START
    } else {
        crc32(CHECKSUM_START, revision)
    };
    Ended {
        has_commits,
        sum,
        prev: log.last,
        rest,
    }
}

/// How far the log of a block goes, in one of the two manners.
pub(crate) fn log_end(by_device: bool, block: &[u8]) -> Ended<'_>
    requires { 4 ≤ length block.now }
    ensures { end_found result ≡ log_end by_device block.now }
{
    if by_device {
        device_end(block)
    } else {
        plain_end(block)
    }
}
