//! Blocks of pairs, as they are written.

ghost use Rattle.std.specs.Prelude.{◌≡◌, ◌≢◌, ◌+◌, ◌%◌, ◌<◌, ◌≤◌, ◌^◌, ◌⊎◌, length, replicate, Some, All, IfOk, IfSome, IsSome};
ghost use Rattle.std.specs.List.{AllByRecursion, list_all};
ghost use Rattle.lfs_block.specs.Bytes.{IsBytes};
ghost use Rattle.lfs_block.specs.Disk.{put};
ghost use Rattle.lfs_block.specs.Geometry.{IsBlockSize, block_size_step};
ghost use Rattle.lfs_tag.specs.Commit.{IsCommit};
ghost use Rattle.lfs_tag.specs.Log.{IsErased};
ghost use Rattle.lfs_tag.specs.Writing.{items, commit_of, committed_end};
ghost use Rattle.lfs_meta.specs.Fits.{EntryFits, TailFits};
ghost use Rattle.lfs_meta.specs.LiveBlock.{committed, revision, stored_part_of, tags_of};
ghost use Rattle.lfs_meta.specs.Complete.{IsComplete};
ghost use Rattle.lfs_pair.specs.Spelling.{part_tags};
ghost use Rattle.lfs_meta.specs.Weighing.{weights};
ghost use Rattle.lfs_pair.specs.Writing.{IsFirstBlock, IsPartBlock, IsRewritten, IsWritten, delta_weight, live_revision, log_written, other_number, part_weight, stored_part, tail_weight};
ghost use Rattle.lfs_meta.specs.Runs.{most_entries};

use crate::edits::{is_zero, part_edits};
use crate::laws::written_parts_replay;
use byteorder::{ByteOrder, LittleEndian};
use lfs_block::{Blocks, put_blocks_stand};
use lfs_meta::{Entry, LiveBlock, Part, Tail, revision, weight};
use lfs_tag::laws::{erased_block, first_commit, log_is_read, written_length};
use lfs_tag::{Edit, FIRST_WORD, write_commit};
use std::alloc::{AllocError, Global};

/// Where a block's first commit begins, behind its revision.
const FIRST_COMMIT: usize = 4;
/// The bytes of a revision, and of a checksum with its tag.
const ALWAYS_TAKEN: u32 = 12;

// ---- what a part takes

/// What entries take of a block, in bytes.
fn weights(entries: &[Entry]) -> u32
    requires { length entries.now ≤ most_entries }
    ensures value { result ≡ weights entries.now }
    ensures small { result ≤ 264708000 }
{
    let mut sum = 0;
    for entry in entries {
        sum += weight(entry);
    }
    sum
}

/// What a tail takes of a block, in bytes.
fn tail_weight(tail: Tail) -> u32
    ensures { result ≡ tail_weight tail }
{
    match tail {
        Tail::End => 0,
        Tail::Soft(..) | Tail::Hard(..) => 12,
    }
}

/// What a delta takes of a block, in bytes.
fn delta_weight(delta: &[u8; 12]) -> u32
    ensures { result ≡ delta_weight delta.now }
{
    if is_zero(delta) { 0 } else { 16 }
}

/// What a part takes of a block that holds nothing else, in bytes.
pub fn part_weight(part: &Part) -> u32
    requires { length part.now.1.entries ≤ most_entries }
    ensures { result ≡ part_weight part.now.1 }
{
    ALWAYS_TAKEN + weights(&part.entries) + tail_weight(part.tail) + delta_weight(&part.delta)
}

// ---- blocks

/// Writes a revision, and behind it one commit of edits.
fn write_log(block: &mut [u8], number: u32, edits: &[Edit])
    requires { committed_end 4 (items edits.now) ≤ length block.old }
    ensures written { block.new ≡ log_written number (items edits.now) block.old }
    ensures commit { IsCommit (commit_of 4 (items edits.now)) }
    ensures bytes { IsBytes block.new }
{
    LittleEndian::write_u32(block, number);
    let _end = write_commit(block, FIRST_COMMIT, FIRST_WORD, edits);
}

/// A block of `size` bytes with a revision and one commit of edits, which is read back so. All else is 0xff. Takes memory.
pub fn block_with(
    alloc: Global,
    size: u32,
    number: u32,
    edits: &[Edit],
) -> Result<Vec<u8>, AllocError>
    requires { committed_end 4 (items edits.now) ≤ size }
    ensures { IfOk result (λ block. IsWritten size number (items edits.now) block.items) }
{
    first_commit();
    log_is_read();
    written_length();
    let mut block = vec![in alloc; 0xff; size as usize]?;
    write_log(&mut block, number, edits);
    Ok(block)
}

/// A block of `size` bytes with a revision and one commit of a part's tags. All else is 0xff.
fn written(
    alloc: Global,
    size: u32,
    number: u32,
    entries: &[Entry],
    tail: Tail,
    delta: &[u8; 12],
) -> Result<Vec<u8>, AllocError>
    requires size { size % block_size_step ≡ 0 }
    requires few { length entries.now ≤ most_entries }
    requires room { part_weight (stored_part entries.now tail delta.now) ≤ size }
    ensures written { IfOk result (λ block. IsWritten size number (part_tags (stored_part entries.now tail delta.now)) block.items) }
    ensures fits { IfOk result (λ block. All EntryFits entries.now) }
    ensures twelve { length delta.now ≡ 12 }
{
    let edits = part_edits(alloc, entries, tail, delta)?;
    block_with(alloc, size, number, &edits)
}

/// The block of a pair that isn't live, and the revision of the one that is. Where neither is, the first one counts as
/// live.
fn other_block<B: Blocks>(blocks: &B, pair: (u32, u32)) -> (u32, u32)
    requires first { pair.0 < (B.disk blocks.now).count }
    requires second { pair.1 < (B.disk blocks.now).count }
    ensures number { result.0 ≡ other_number (B.disk blocks.now) pair }
    ensures revision { result.1 ≡ live_revision (B.disk blocks.now) pair }
{
    let _fits_the_limits = blocks.size();
    let first = blocks.block(pair.0);
    let second = blocks.block(pair.1);
    match LiveBlock::of(first, second) {
        LiveBlock::Second(_) => (pair.0, revision(second)),
        LiveBlock::First(_) | LiveBlock::Neither => (pair.1, revision(first)),
    }
}

/// A block of `size` bytes with a revision and a part, all else 0xff. Beside an erased block its pair holds the part. Takes memory.
pub fn part_block(alloc: Global, size: u32, number: u32, part: &Part) -> Result<Vec<u8>, AllocError>
    requires size { IsBlockSize size }
    requires complete { AllByRecursion IsComplete part.now.1.entries }
    requires few { length part.now.1.entries ≤ most_entries }
    requires room { part_weight part.now.1 ≤ size }
    requires tail { TailFits part.now.1.tail }
    ensures { IfOk result (λ block. IsPartBlock size number part.now.1 block.items) }
{
    written_parts_replay();
    erased_block();
    log_is_read();
    written(alloc, size, number, &part.entries, part.tail, &part.delta)
}

/// The first block of a new pair: revision 1 and one commit of entries and a tail, all else 0xff. Beside an erased block
/// the pair then holds them, with a delta of zero. `None` is want of memory.
pub fn first_block(alloc: Global, size: u32, entries: &[Entry], tail: Tail) -> Option<Vec<u8>>
    requires size { IsBlockSize size }
    requires complete { AllByRecursion IsComplete entries.now }
    requires few { length entries.now ≤ most_entries }
    requires room { weights entries.now + 40 ≤ size }
    requires tail { TailFits tail }
    ensures { IfSome result (λ block. IsFirstBlock size (stored_part entries.now tail (replicate 12 0)) block.items) }
{
    written_parts_replay();
    erased_block();
    log_is_read();
    let Ok(block) = written(alloc, size, 1, entries, tail, &[0; 12]) else {
        return None;
    };
    Some(block)
}

/// A pair rewritten: the number of its block that isn't live, and that block's new bytes, a revision one more than the
/// live block's modulo 2^32 and one commit of entries, a tail and a delta, all else 0xff. In the image with that block the
/// pair holds them. Takes memory.
pub fn rewrite<B: Blocks>(
    alloc: Global,
    blocks: &B,
    pair: (u32, u32),
    entries: &[Entry],
    tail: Tail,
    delta: [u8; 12],
) -> Result<(u32, Vec<u8>), AllocError>
    requires apart { pair.0 ≢ pair.1 }
    requires first { pair.0 < (B.disk blocks.now).count }
    requires second { pair.1 < (B.disk blocks.now).count }
    requires complete { AllByRecursion IsComplete entries.now }
    requires few { length entries.now ≤ most_entries }
    requires room { weights entries.now + 40 ≤ (B.disk blocks.now).size }
    requires tail { TailFits tail }
    ensures { IfOk result (λ new. IsRewritten (B.disk blocks.now) pair (stored_part entries.now tail delta) new.0 new.1.items) }
{
    put_blocks_stand();
    written_parts_replay();
    let size = blocks.size();
    let (number, live) = other_block(blocks, pair);
    let bytes = written(alloc, size, live.wrapping_add(1), entries, tail, &delta)?;
    Ok((number, bytes))
}
