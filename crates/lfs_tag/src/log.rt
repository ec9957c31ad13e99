//! The log of a block.

ghost use Rattle.std.specs.Prelude.{◌≡◌};
ghost use Rattle.std.specs.List.{list_all};
ghost use Rattle.lfs_tag.specs.LogSeen.{is_erased};

use crate::reading::{CHECKSUM_START, commit_at};
use crate::tag::FIRST_WORD;
use crate::tags::Tags;
use lfs_block::crc32;
use std::marker::Model;

/// Whether each of eight bytes is 0xff: whether they are the greatest number.
fn is_erased_eight(bytes: &[u8; 8]) -> bool
    ensures { result ≡ is_erased bytes.now }
{
    u64::from_le_bytes(*bytes) == u64::MAX
}

/// Whether each byte of each eight is 0xff.
fn are_erased_eights(eights: &[[u8; 8]]) -> bool
    ensures { result ≡ list_all is_erased eights.now }
{
    eights.iter().all(|eight| is_erased_eight(eight))
}

/// Whether each byte is 0xff, one by one.
fn are_erased_bytes(bytes: &[u8]) -> bool
    ensures { result ≡ is_erased bytes.now }
{
    bytes.iter().all(|byte| *byte == 0xff)
}

/// Whether each byte is 0xff, eight by eight.
fn is_erased(bytes: &[u8]) -> bool
    ensures { result ≡ is_erased bytes.now }
{
    let (eights, rest) = bytes.as_chunks::<8>();
    are_erased_eights(eights) && are_erased_bytes(rest)
}

/// The log of a block: its longest front of valid commits. Its meaning is what is read of it, with the tags of all its
/// commits.
///
/// Source: SPEC.md, "Metadata pairs".
#[derive(Drop)]
pub struct Log<'a> {
    /// Where the last commit ends, in bytes from the block's beginning.
    pub end: usize,
    /// The number of commits.
    pub commits: usize,
    /// The word that the next tag is XORed with.
    pub last: u32,
    /// Whether each byte from `end` on is 0xff.
    pub erased: bool,
    /// The bytes of the commits.
    committed: &'a [u8],
}

impl<'a> Model for Log<'a> {
    ghost use Rattle.lfs_tag.specs.LogSeen.{LogSeen};
    ghost use Rattle.lfs_tag.specs.Reading.{tags_at};

    ghost Value = { LogSeen };

    ghost view = { λ log. record {
      end = log.end;
      commits = log.commits;
      last = log.last;
      erased = log.erased;
      tags = tags_at 0xffffffff log.committed.now;
    } };
}

impl<'a> Log<'a> {
    ghost use Rattle.std.specs.Prelude.{◌≡◌, ◌≤◌, length};
    ghost use Rattle.std.specs.List.{AllByRecursion};
    ghost use Rattle.lfs_tag.specs.Commit.{IsItem};
    ghost use Rattle.lfs_tag.specs.Log.{IsLog};
    ghost use Rattle.lfs_tag.specs.LogSeen.{log_seen};
    ghost use Rattle.lfs_tag.specs.Reading.{log_of};

    /// The log of `block`, which has four bytes or more.
    pub fn read(block: &'a [u8]) -> Log<'a>
        requires { 4 ≤ length block.now }
        ensures seen { result ≡ log_seen block.now }
        ensures log { IsLog block.now (log_of block.now).commits (log_of block.now).rest }
    {
        let (revision, bytes) = block.split_at(4);
        let mut sum = crc32(CHECKSUM_START, revision);
        let mut last = FIRST_WORD;
        let mut rest = bytes;
        let mut commits = 0;
        while let Some(commit) = commit_at(sum, last, rest) {
            sum = CHECKSUM_START;
            last = commit.next;
            rest = commit.rest;
            commits += 1;
        }
        let (committed, _) = bytes.split_at(bytes.len() - rest.len());
        Log {
            end: 4 + committed.len(),
            commits,
            last,
            erased: is_erased(rest),
            committed,
        }
    }

    /// The tags of all commits, in order, each with its data, without those of checksums.
    pub fn tags(&self) -> Tags<'a>
        ensures tags { result ≡ self.now.tags }
        ensures valid { AllByRecursion IsItem result }
    {
        Tags::new(self.committed)
    }
}
