//! Commits as they are written.

ghost use Rattle.std.specs.Prelude.{◌≡◌, ◌≤◌, ◌+◌, ◌++◌, ◌-◌, length, nat_le, take, drop, replicate, bit_xor};
ghost use Rattle.lfs_block.specs.Checksum.{crc};
ghost use Rattle.std.specs.Int.{w32, to_be_bytes, to_le_bytes};
ghost use Rattle.lfs_block.specs.Disk.{put_at};
ghost use Rattle.lfs_tag.specs.Tag.{word_of};
ghost use Rattle.lfs_tag.specs.Commit.{IsCommit, tags_bytes, last_word, commit_bytes, next_word};
ghost use Rattle.lfs_tag.specs.EditData.{data_bytes};
ghost use Rattle.lfs_tag.specs.Writing.{items, tags_len, committed_end, commit_of, lead_at};

use crate::edit::Edit;
use crate::reading::CHECKSUM_START;
use crate::tag::{NO_ID, Tag};
use byteorder::{BigEndian, ByteOrder, LittleEndian};
use lfs_block::{BLOCK_SIZE_STEP, crc32};

/// The number of bytes of a block's revision, where its first commit begins.
const REVISION_LEN: usize = 4;
/// A written commit ends at a multiple of this many bytes of its block.
const COMMIT_STEP: usize = BLOCK_SIZE_STEP as usize;
/// The type of the checksum's tag that closes a written commit.
const CLOSING_KIND: u16 = 0x500;
/// The number of bytes of a tag's word.
const WORD_LEN: usize = 4;
/// The number of bytes of the checksum's tag and of the checksum.
const CLOSING_LEN: usize = 8;

/// Writes `bytes` at the place `at`.
fn put(block: &mut [u8], at: usize, bytes: &[u8])
    requires { at + length bytes.now ≤ length block.old }
    ensures { block.new ≡ put_at at bytes.now block.old }
{
    block[at..at + bytes.len()].copy_from_slice(bytes);
}

/// Writes a word at the place `at`, the highest byte first.
fn put_big_word(block: &mut [u8], at: usize, word: u32)
    requires { at + 4 ≤ length block.old }
    ensures { block.new ≡ put_at at (to_be_bytes w32 word) block.old }
{
    let mut bytes = [0; 4];
    BigEndian::write_u32(&mut bytes, word);
    put(block, at, &bytes);
}

/// Writes a word at the place `at`, the lowest byte first.
fn put_little_word(block: &mut [u8], at: usize, word: u32)
    requires { at + 4 ≤ length block.old }
    ensures { block.new ≡ put_at at (to_le_bytes w32 word) block.old }
{
    let mut bytes = [0; 4];
    LittleEndian::write_u32(&mut bytes, word);
    put(block, at, &bytes);
}

/// Writes `len` bytes of 0xff at the place `at`.
fn put_padding(block: &mut [u8], at: usize, len: usize)
    requires { at + len ≤ length block.old }
    ensures { block.new ≡ put_at at (replicate len 0xff) block.old }
{
    block[at..at + len].fill(0xff);
}

/// Writes a tag with its data at the place `at`, and gives the place behind it.
fn put_edit(block: &mut [u8], at: usize, prev: u32, edit: Edit) -> usize
    requires { at + 4 + length (data_bytes edit.content) ≤ length block.old }
    ensures written { block.new ≡ put_at at (to_be_bytes w32 (bit_xor (word_of edit.entry.tag) prev) ++ data_bytes edit.entry.content) block.old }
    ensures end { result ≡ at + 4 + length (data_bytes edit.entry.content) }
{
    let bytes = edit.content.as_bytes();
    put_big_word(block, at, edit.tag.encode(prev));
    put(block, at + 4, bytes);
    at + 4 + bytes.len()
}

/// Writes tags with their data at the place `at`, and gives the place behind them and the last one's word.
fn put_edits(block: &mut [u8], at: usize, prev: u32, edits: &[Edit]) -> (usize, u32)
    requires { at + tags_len (items edits.now) ≤ length block.old }
    ensures written { block.new ≡ put_at at (tags_bytes prev (items edits.now)) block.old }
    ensures end { result.0 ≡ at + tags_len (items edits.now) }
    ensures last { result.1 ≡ last_word prev (items edits.now) }
{
    let mut place = at;
    let mut last = prev;
    for edit in edits {
        place = put_edit(block, place, last, *edit);
        last = edit.tag.word();
    }
    (place, last)
}

/// The checksum of the bytes from the place `at` up to `end`, and in a block's first commit of the revision too.
fn checksum_from(block: &[u8], at: usize, end: usize) -> u32
    requires order { at ≤ end }
    requires within { end ≤ length block.now }
    ensures { result ≡ crc 0xffffffff (lead_at at block.now ++ take (end - at) (drop at block.now)) }
{
    let (front, _) = block.split_at(end);
    if at == REVISION_LEN {
        return crc32(CHECKSUM_START, front);
    }
    let (_, covered) = front.split_at(at);
    crc32(CHECKSUM_START, covered)
}

/// Writes a commit of `edits` into `block` at the place `at`, behind the word `prev`, up to a multiple of 16. The first
/// commit of a block is the one at 4: its checksum covers the revision too. Gives the commit's end and the word that the
/// next tag is XORed with.
pub fn write_commit(block: &mut [u8], at: usize, prev: u32, edits: &[Edit]) -> (usize, u32)
    requires at { 4 ≤ at }
    requires fits { committed_end at (items edits.now) ≤ length block.old }
    ensures written { block.new ≡ put_at at (commit_bytes (lead_at at block.old) prev (commit_of at (items edits.now))) block.old }
    ensures len { at + length (commit_bytes (lead_at at block.old) prev (commit_of at (items edits.now))) ≡ committed_end at (items edits.now) }
    ensures commit { IsCommit (commit_of at (items edits.now)) }
    ensures end { result.0 ≡ committed_end at (items edits.now) }
    ensures next { result.1 ≡ next_word (commit_of at (items edits.now)) }
{
    let (place, last) = put_edits(block, at, prev, edits);
    let end = (place + 8 + COMMIT_STEP - 1) / COMMIT_STEP * COMMIT_STEP;
    let closing = Tag {
        kind: CLOSING_KIND,
        id: NO_ID,
        len: (end - (place + 4)) as u16,
    };
    put_big_word(block, place, closing.encode(last));
    let checksum = checksum_from(block, at, place + 4);
    put_little_word(block, place + 4, checksum);
    put_padding(block, place + 8, end - (place + 8));
    (end, closing.word())
}

/// What tags with their data leave of so many bytes: nothing where they take more.
fn room_behind(room: usize, edits: &[Edit]) -> usize
    ensures { result ≡ room - tags_len (items edits.now) }
{
    let mut left = room;
    for edit in edits {
        left = left.saturating_sub(WORD_LEN + edit.content.as_bytes().len());
    }
    left
}

/// Whether a commit of `edits` at the place `at`, with its padding, ends within a block of `size` bytes.
pub fn commit_fits(at: usize, edits: &[Edit], size: usize) -> bool
    ensures { result ≡ nat_le (committed_end at (items edits.now)) size }
{
    let room = (size / COMMIT_STEP * COMMIT_STEP).saturating_sub(at);
    room_behind(room, edits) >= CLOSING_LEN
}
