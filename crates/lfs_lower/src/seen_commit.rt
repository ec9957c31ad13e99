//! A commit as later disk versions read it.

ghost use Rattle.std.specs.Prelude.{◌≡◌, option_map};
ghost use Rattle.lfs_tag.specs.Tag.{word_of};
ghost use Rattle.lfs_tag.specs.Found.{tag_found};
ghost use Rattle.lfs_tag.specs.Reading.{closed};
ghost use Rattle.lfs_lower.specs.Commits.{closes, later_at};
ghost use Rattle.lfs_lower.specs.Seen.{later_commit_found, later_commit_seen};

use crate::told::{Told, told_by};
use lfs_block::crc32;
use lfs_tag::{CHECKSUM, Found, Tag, tag_at};

/// The least lower bits of the types of a checksum's tags that close no commit.
const LEAST_UNCLOSING: u16 = 0x80;

/// A commit at the front of bytes.
#[derive(Clone, Copy)]
pub(crate) struct Committed<'a> {
    /// The word that the next tag is XORed with.
    pub(crate) next: u32,
    /// What is told in it and before it.
    pub(crate) told: Told,
    /// What stands behind the commit.
    pub(crate) rest: &'a [u8],
}

/// Whether a tag closes its commit for a later disk version.
///
/// Source: littlefs disk version 2.1.
pub fn closes(tag: Tag) -> bool
    ensures { result ≡ closes (word_of tag) }
{
    tag.main_kind() == CHECKSUM && tag.chunk() < LEAST_UNCLOSING
}

/// The commit that a tag closes, if it holds the checksum `sum`.
#[tactic(auto, unfolding(lfs_tag::specs::Reading::closed))]
fn closed<'a>(sum: u32, told: Told, found: Found<'a>) -> Option<Committed<'a>>
    ensures { option_map later_commit_found result ≡ option_map (later_commit_seen told) (closed sum (tag_found found.entry)) }
{
    let commit = lfs_tag::closed(sum, found)?;
    Some(Committed {
        next: commit.next,
        told,
        rest: commit.rest,
    })
}

/// The commit at the front of `bytes`, behind the word `prev`, where `sum` is the checksum of what it covers before them, and
/// `told` is told.
pub(crate) fn commit_at<'a>(
    mut sum: u32,
    mut prev: u32,
    mut told: Told,
    bytes: &'a [u8],
) -> Option<Committed<'a>>
    ensures { option_map later_commit_found result ≡ option_map (later_commit_seen told) (later_at sum prev bytes.entry.now) }
{
    let mut rest = bytes;
    while let Some(found) = tag_at(prev, rest) {
        sum = crc32(sum, found.stored);
        if closes(found.tag) {
            return closed(sum, told, found);
        }
        sum = crc32(sum, found.content);
        told = told_by(told, found);
        prev = found.tag.word();
        rest = found.rest;
    }
    None
}
