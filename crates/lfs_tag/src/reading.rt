//! What stands at the front of bytes: a tag, a commit.

ghost use Rattle.std.specs.Prelude.{◌≡◌, ◌≤◌, length, take, option_map, IfSome};
ghost use Rattle.std.specs.Int.{w32, from_be_bytes};
ghost use Rattle.lfs_tag.specs.Tag.{data_len, word_of};
ghost use Rattle.lfs_tag.specs.Commit.{word_after};
ghost use Rattle.lfs_tag.specs.Reading.{tag_at, closed, commit_at};
ghost use Rattle.lfs_tag.specs.Found.{tag_found, commit_found, commit_seen};

use crate::tag::{CHECKSUM, DELETED, Tag};
use byteorder::{BigEndian, ByteOrder};
use lfs_block::{crc32, little_word};

/// The start value of each commit's checksum.
pub const CHECKSUM_START: u32 = 0xffff_ffff;

/// A tag with its data at the front of bytes.
///
/// Source: SPEC.md, "Metadata tags".
#[derive(Clone, Copy)]
pub struct Found<'a> {
    /// Its word as it is stored.
    pub stored: &'a [u8],
    /// The tag.
    pub tag: Tag,
    /// Its data.
    pub content: &'a [u8],
    /// What stands behind its data.
    pub rest: &'a [u8],
}

/// A commit at the front of bytes.
///
/// Source: SPEC.md, "0x5xx CRC".
#[derive(Clone, Copy)]
pub struct Committed<'a> {
    /// The word that the next tag is XORed with.
    pub next: u32,
    /// What stands behind the commit.
    pub rest: &'a [u8],
}

/// The first four bytes, the highest first.
fn big_word(bytes: &[u8]) -> u32
    requires { 4 ≤ length bytes.now }
    ensures { result ≡ from_be_bytes w32 bytes.now }
{
    BigEndian::read_u32(bytes)
}

/// The tag at the front of `bytes`, behind the word `prev`; `None` where it isn't valid or runs past their end.
///
/// Source: SPEC.md, "Metadata tags".
#[tactic(auto, unfolding(crate::specs::Reading::tag_at))]
pub fn tag_at<'a>(prev: u32, bytes: &'a [u8]) -> Option<Found<'a>>
    ensures tag { option_map tag_found result ≡ tag_at prev bytes.now }
    ensures len { IfSome result (λ found. length found.content.now ≡ data_len (word_of found.tag)) }
{
    if bytes.len() < 4 {
        return None;
    }
    let (stored, behind) = bytes.split_at(4);
    let tag = Tag::decode(big_word(stored), prev)?;
    let len = tag.data_len();
    if behind.len() < len {
        return None;
    }
    let (content, rest) = behind.split_at(len);
    Some(Found {
        stored,
        tag,
        content,
        rest,
    })
}

/// The word that the tag behind a checksum's tag that closes a commit is XORed with.
///
/// Source: SPEC.md, "0x5xx CRC".
pub fn word_after(tag: Tag) -> u32
    ensures { result ≡ word_after (word_of tag) }
{
    tag.word() + (u32::from(tag.kind & 1) << 31)
}

/// The commit that a checksum's tag closes, if it holds the checksum `sum`; `None` else.
///
/// Source: SPEC.md, "0x5xx CRC"; that a tag which is deleted or shorter than four bytes closes none: own.
#[tactic(auto, unfolding(crate::specs::Reading::closed))]
pub fn closed<'a>(sum: u32, found: Found<'a>) -> Option<Committed<'a>>
    ensures { option_map commit_found result ≡ option_map commit_seen (closed sum (tag_found found.entry)) }
{
    let Found {
        stored: _,
        tag,
        content,
        rest,
    } = found;
    if tag.len == DELETED || content.len() < 4 {
        return None;
    }
    let (checksum, _) = content.split_at(4);
    if little_word(checksum) != sum {
        return None;
    }
    Some(Committed {
        next: word_after(tag),
        rest,
    })
}

/// The commit at the front of `bytes`, behind the word `prev`, where `sum` is the checksum of what it covers before them.
pub(crate) fn commit_at<'a>(sum: u32, mut prev: u32, bytes: &'a [u8]) -> Option<Committed<'a>>
    ensures { option_map commit_found result ≡ option_map commit_seen (commit_at sum prev bytes.entry.now) }
{
    let mut rest = bytes;
    while let Some(found) = tag_at(prev, rest) {
        if found.tag.main_kind() == CHECKSUM {
            let (covered, _) = bytes.split_at(bytes.len() - rest.len() + 4);
            return closed(crc32(sum, covered), found);
        }
        prev = found.tag.word();
        rest = found.rest;
    }
    None
}
