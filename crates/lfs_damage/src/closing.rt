//! The tag that closes what bytes begin with as a commit.

ghost use Rattle.std.specs.Prelude.{◌≡◌, option_map};
ghost use Rattle.lfs_tag.specs.Found.{commit_found, tag_found};
ghost use Rattle.lfs_damage.specs.Damage.{closed_wrong, closing_at, damaged_at, has_checksum, holds_tags, is_cut_off, is_wrong};
ghost use Rattle.lfs_damage.specs.Seen.{closing_found};

use lfs_block::{crc32, little_word};
use lfs_lower::closes;
use lfs_tag::{Committed, DELETED, Found, NO_ID, tag_at, word_after};

/// The tag that closes a commit.
#[derive(Clone, Copy)]
pub(crate) struct Closing<'a> {
    /// The checksum of what the commit covers.
    pub(crate) right: u32,
    /// The tag.
    pub(crate) tag: Found<'a>,
}

/// The tag that closes what `bytes` begin with as a commit, after the word `prev`, where `sum` is the checksum of what it covers before
/// them; `None` if they end before that, or a tag isn't valid.
///
/// Source: littlefs disk version 2.1.
pub(crate) fn closing_at<'a>(mut sum: u32, mut prev: u32, bytes: &'a [u8]) -> Option<Closing<'a>>
    ensures { option_map closing_found result ≡ closing_at sum prev bytes.entry.now }
{
    let mut rest = bytes;
    while let Some(found) = tag_at(prev, rest) {
        sum = crc32(sum, found.stored);
        if closes(found.tag) {
            return Some(Closing {
                right: sum,
                tag: found,
            });
        }
        sum = crc32(sum, found.content);
        prev = found.tag.word();
        rest = found.rest;
    }
    None
}

/// Whether a checksum was being written when the power went.
fn is_cut_off(right: u32, stored: u32) -> bool
    ensures { result ≡ is_cut_off right stored }
{
    stored == 0xffff_ffff || stored % 0x100 == right % 0x100 && (stored ^ right).count_ones() > 1
}

/// Whether a checksum was written and isn't the right one.
fn is_wrong(right: u32, stored: u32) -> bool
    ensures { result ≡ is_wrong right stored }
{
    stored != right && !is_cut_off(right, stored)
}

/// Whether a tag that closes a commit is one as littlefs writes it.
///
/// Source: SPEC.md, "0x5xx CRC".
fn has_checksum(tag: &Found<'_>) -> bool
    ensures { result ≡ has_checksum (tag_found tag.now) }
{
    tag.tag.id == NO_ID && tag.tag.len != DELETED && tag.content.len() >= 4
}

/// What stands after a damaged commit that this tag closes.
fn closed_wrong<'a>(closing: Closing<'a>) -> Option<Committed<'a>>
    ensures { option_map commit_found result ≡ closed_wrong (closing_found closing.entry) }
{
    let Closing { right, tag } = closing;
    if !has_checksum(&tag) {
        return None;
    }
    let (stored, _) = tag.content.split_at(4);
    if !is_wrong(right, little_word(stored)) {
        return None;
    }
    Some(Committed {
        next: word_after(tag.tag),
        rest: tag.rest,
    })
}

/// Whether what `bytes` begin with as a commit, after the word `prev`, holds another tag than the one that closes it. Bytes of 0 read as tags
/// that close commits.
fn holds_tags(prev: u32, bytes: &[u8]) -> bool
    ensures { result ≡ holds_tags prev bytes.now }
{
    match tag_at(prev, bytes) {
        Some(found) => !closes(found.tag),
        None => false,
    }
}

/// What stands after the damaged commit at the front of `bytes`, if one is there, after the word `prev`, where `sum` is the checksum of
/// what it covers before them.
pub(crate) fn damaged_at<'a>(sum: u32, prev: u32, bytes: &'a [u8]) -> Option<Committed<'a>>
    ensures { option_map commit_found result ≡ damaged_at sum prev bytes.now }
{
    if !holds_tags(prev, bytes) {
        return None;
    }
    closed_wrong(closing_at(sum, prev, bytes)?)
}
