//! What the last superblock states of an image with which bytes begin.

ghost use Rattle.std.specs.Prelude.{◌≡◌, ◌<◌, ◌≤◌, ◌/◌, length};
ghost use Rattle.lfs_block.specs.Disk.{block_of, image_of};
ghost use Rattle.lfs_block.specs.Geometry.{IsBlockSize};
ghost use Rattle.lfs_lower.specs.Beginning.{IsSize, begins_with, lead, live_told, log_superblock, log_told, superblock_in, superblock_of, there_or, told_at};

use crate::seen_block::{Stated, stated_from};
use crate::seen_pair::is_later;
use crate::told::{Superblock, Told};
use lfs_block::{BLOCK_SIZE_STEP, MAX_BLOCK_SIZE, crc32, geometry_ok};
use lfs_fs::ROOT;
use lfs_meta::revision;
use lfs_tag::{CHECKSUM_START, FIRST_WORD};

/// The least size of a block, in bytes.
const MIN_BLOCK_SIZE: u32 = 256;
/// The most pairs that are looked at for a superblock.
const MOST_SUPERBLOCKS: u32 = 16;
/// The most bytes of a log.
const MOST_LOG: usize = 65_536;

// ---- a pair

/// What the commits of a block tell.
fn log_told(block: &[u8]) -> Stated
    requires { 4 ≤ length block.now }
    ensures { result ≡ log_told block.now }
{
    let (number, bytes) = block.split_at(4);
    stated_from(crc32(CHECKSUM_START, number), FIRST_WORD, bytes)
}

/// The first of two if it has a commit, else the second.
fn there_or(a: Stated, b: Stated) -> Stated
    ensures { result ≡ there_or a b }
{
    if a.is_there { a } else { b }
}

/// What the live block of two tells.
fn live_told(first: &[u8], second: &[u8]) -> Stated
    requires first { 4 ≤ length first.now }
    requires second { 4 ≤ length second.now }
    ensures { result ≡ live_told first.now second.now }
{
    let first_told = log_told(first);
    let second_told = log_told(second);
    if is_later(revision(second), revision(first)) {
        there_or(second_told, first_told)
    } else {
        there_or(first_told, second_told)
    }
}

/// Block `number` of the image of blocks of `size` bytes with which bytes begin.
fn block_of(bytes: &[u8], size: u32, number: u32) -> &[u8]
    requires size { IsBlockSize size }
    requires within { number < length bytes.now / size }
    ensures block { result.now ≡ block_of (image_of size bytes.now) number }
    ensures len { length result.now ≡ size }
{
    let start = number as usize * size as usize;
    &bytes[start..start + size as usize]
}

/// What a pair of it tells: nothing if there is no pair, or a block stands past the end.
fn told_at(bytes: &[u8], size: u32, pair: Option<(u32, u32)>) -> Told
    requires { IsBlockSize size }
    ensures { result ≡ told_at (image_of size bytes.now) pair }
{
    let Some((first, second)) = pair else {
        return Told::nothing();
    };
    let count = bytes.len() / size as usize;
    if first as usize >= count || second as usize >= count {
        return Told::nothing();
    }
    let first = block_of(bytes, size, first);
    live_told(first, block_of(bytes, size, second)).told
}

// ---- along hard tails

/// The superblock of a pair: a struct under its name.
fn superblock_in(told: Told) -> Option<Superblock>
    ensures { result ≡ superblock_in told }
{
    if told.is_named { told.superblock } else { None }
}

/// The pair after one that holds a superblock alone, or nothing, in the same directory.
fn lead(told: Told) -> Option<(u32, u32)>
    ensures { result ≡ lead told }
{
    if told.is_alone { told.next } else { None }
}

/// What the last superblock states of the image of blocks of `size` bytes with which bytes begin: of those along hard tails through pairs
/// that hold a superblock alone, or nothing, the last one counts. `None` if there is none.
fn superblock_of(size: u32, bytes: &[u8]) -> Option<Superblock>
    requires { IsBlockSize size }
    ensures { result ≡ superblock_of size bytes.now }
{
    let mut last = None;
    let mut next = Some(ROOT);
    for _pair in 0..MOST_SUPERBLOCKS {
        let told = told_at(bytes, size, next);
        last = superblock_in(told).or(last);
        next = lead(told);
    }
    last
}

// ---- images

/// What the last superblock states of the image of blocks of `size` bytes with which bytes begin: blocks have this size, and it is the
/// one that is stated. `None` if no such image begins so. Whether it mounts isn't looked at.
///
/// Source: littlefs disk version 2.1; at most 16 pairs are looked at for a superblock (own).
pub fn begins_with(size: u32, bytes: &[u8]) -> Option<Superblock>
    ensures { result ≡ begins_with size bytes.now }
{
    if !geometry_ok(size, 2) {
        return None;
    }
    let stated = superblock_of(size, bytes)?;
    if stated.size == size {
        Some(stated)
    } else {
        None
    }
}

/// The least size of a block, in bytes, in which an image begins with the bytes, by the commits that version 2.1 reads. `None` if no
/// image begins so. Whether it mounts isn't looked at.
pub fn size_of(bytes: &[u8]) -> Option<u32>
    ensures { IsSize bytes.now result }
{
    let mut size = MIN_BLOCK_SIZE;
    while size <= MAX_BLOCK_SIZE {
        if begins_with(size, bytes).is_some() {
            return Some(size);
        }
        size += BLOCK_SIZE_STEP;
    }
    None
}

// ---- logs alone

/// What the superblock states of the log with which bytes begin, whatever the size of its block is; `None` if it has none.
pub fn log_superblock(bytes: &[u8]) -> Option<Superblock>
    ensures { result ≡ log_superblock bytes.now }
{
    if bytes.len() < 4 {
        return None;
    }
    let (log, _) = bytes.split_at(bytes.len().min(MOST_LOG));
    superblock_in(log_told(log).told)
}
