//! Commits appended to a pair's live block.

ghost use Rattle.std.specs.Prelude.{◌≡◌, ◌≢◌, ◌<◌, ◌≤◌, ◌++◌, true, false, length, option_map, option_and_then, IfOk, IfSome, IfNone};
ghost use Rattle.lfs_block.specs.Disk.{put};
ghost use Rattle.lfs_tag.specs.Log.{IsLog};
ghost use Rattle.lfs_tag.specs.LogSeen.{log_seen};
ghost use Rattle.lfs_tag.specs.Reading.{log_of};
ghost use Rattle.lfs_tag.specs.Writing.{items};
ghost use Rattle.lfs_meta.specs.LiveBlock.{live_block, live_log, part_of, tags_of};
ghost use Rattle.lfs_meta.specs.Replay.{replay};
ghost use Rattle.lfs_pair.specs.Appending.{IsAppended, IsLiveLonger, IsLonger, IsNumberedLonger, can_append, has_room, some_room};

use lfs_block::{Blocks, put_blocks_stand};
use lfs_meta::{LiveBlock, live_blocks_are_read};
use lfs_tag::laws::{
    blocks_have_a_log, erased_is_decided, log_is_read, next_commit, written_length,
};
use lfs_tag::{Edit, Log, commit_fits, write_commit};
use std::alloc::{AllocError, Global};

/// A block has a log, which is what is read of it.
fn log_stands(block: &[u8])
    requires { 4 ≤ length block.now }
    ensures { IsLog block.now (log_of block.now).commits (log_of block.now).rest }
{
    blocks_have_a_log();
}

/// Writes a commit of edits behind the log of a block, which ends at `end` with the word `last`.
fn lengthen(block: &mut [u8], end: usize, last: u32, edits: &[Edit])
    requires log { IsLog block.old (log_of block.old).commits (log_of block.old).rest }
    requires end { end ≡ (log_seen block.old).end }
    requires last { last ≡ (log_seen block.old).last }
    requires room { has_room (length block.old) (log_seen block.old) (items edits.now) ≡ true }
    ensures { IsLonger (items edits.now) block.old block.new }
{
    log_is_read();
    written_length();
    next_commit();
    erased_is_decided();
    let _end = write_commit(block, end, last, edits);
}

/// A copy of a block with a commit of edits behind its log, which ends at `end` with the word `last`.
fn longer(
    alloc: Global,
    block: &[u8],
    end: usize,
    last: u32,
    edits: &[Edit],
) -> Result<Vec<u8>, AllocError>
    requires long { 4 ≤ length block.now }
    requires end { end ≡ (log_seen block.now).end }
    requires last { last ≡ (log_seen block.now).last }
    requires room { has_room (length block.now) (log_seen block.now) (items edits.now) ≡ true }
    ensures { IfOk result (λ new. IsLonger (items edits.now) block.now new.items) }
{
    log_stands(block);
    let mut new = Vec::from_slice(alloc, block)?;
    lengthen(&mut new, end, last, edits);
    Ok(new)
}

/// A block's number, and a copy of the block with a commit of edits behind its log; `None` where there is no room for it.
fn numbered_longer(
    alloc: Global,
    number: u32,
    block: &[u8],
    log: Log<'_>,
    edits: &[Edit],
) -> Result<Option<(u32, Vec<u8>)>, AllocError>
    requires long { 4 ≤ length block.now }
    requires log { log ≡ log_seen block.now }
    ensures longer { IfOk result (λ found. IfSome found (λ new. IsNumberedLonger (items edits.now) number block.now new.0 new.1.items)) }
    ensures full { IfOk result (λ found. IfNone found (has_room (length block.now) (log_seen block.now) (items edits.now) ≡ false)) }
{
    if !log.erased || !commit_fits(log.end, edits, block.len()) {
        return Ok(None);
    }
    let new = longer(alloc, block, log.end, log.last, edits)?;
    Ok(Some((number, new)))
}

/// The live block of two with a commit of edits behind its log, and its number in the pair; `None` where neither is live, or
/// there is no room for the commit.
fn live_longer(
    alloc: Global,
    pair: (u32, u32),
    first: &[u8],
    second: &[u8],
    edits: &[Edit],
) -> Result<Option<(u32, Vec<u8>)>, AllocError>
    requires long { 4 ≤ length first.now }
    requires same { length second.now ≡ length first.now }
    ensures longer { IfOk result (λ found. IfSome found (λ new. IsLiveLonger (items edits.now) pair first.now second.now new.0 new.1.items)) }
    ensures full { IfOk result (λ found. IfNone found (some_room (length first.now) (live_log (live_block first.now second.now)) (items edits.now) ≡ false)) }
{
    live_blocks_are_read();
    match LiveBlock::of(first, second) {
        LiveBlock::First(log) => numbered_longer(alloc, pair.0, first, log, edits),
        LiveBlock::Second(log) => numbered_longer(alloc, pair.1, second, log, edits),
        LiveBlock::Neither => Ok(None),
    }
}

/// A commit of tags appended to a pair: the number of its live block, and that block's bytes with the commit behind its log.
/// In the image with that block the pair's tags are the ones before and these, and its part is what they leave one after
/// another. `None` where neither block is live, a byte behind the log is not 0xff, or the commit with its padding does not
/// fit into the block. Takes memory.
///
/// Source: SPEC.md, "Metadata pairs"; how far a commit is padded: own.
pub fn append<B: Blocks>(
    alloc: Global,
    blocks: &B,
    pair: (u32, u32),
    edits: &[Edit],
) -> Result<Option<(u32, Vec<u8>)>, AllocError>
    requires apart { pair.0 ≢ pair.1 }
    requires first { pair.0 < (B.disk blocks.now).count }
    requires second { pair.1 < (B.disk blocks.now).count }
    ensures appended { IfOk result (λ found. IfSome found (λ new. IsAppended (B.disk blocks.now) pair (items edits.now) new.0 new.1.items)) }
    ensures part { IfOk result (λ found. IfSome found (λ new. part_of (put new.0 new.1.items (B.disk blocks.now)) pair
        ≡ option_and_then replay (option_map (λ old. old ++ items edits.now) (tags_of (B.disk blocks.now) pair)))) }
    ensures full { IfOk result (λ found. IfNone found (can_append (B.disk blocks.now) pair (items edits.now) ≡ false)) }
{
    put_blocks_stand();
    let _fits_the_limits = blocks.size();
    let first = blocks.block(pair.0);
    let second = blocks.block(pair.1);
    live_longer(alloc, pair, first, second, edits)
}
