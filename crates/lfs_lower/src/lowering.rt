//! Blocks and pairs of an image lowered.

ghost use Rattle.std.specs.Prelude.{◌≡◌, ◌≢◌, ◌<◌, ◌≤◌, Bool, IfOk, IfSome, OnOk, is_some, length, ℕ};
ghost use Rattle.lfs_lower.specs.Lowered.{IsBlockLowered, IsLaterLive, IsPairLowered, IsReadFor, tried_first};
ghost use Rattle.lfs_lower.specs.Spelled.{lowered_tags};

use crate::alone::{Rewrite, write_alone};
use crate::block::lowered_block;
use crate::kept::kept_edits;
use crate::later_part::later_part_at;
use crate::laws::lowered_blocks_are_read;
use crate::plain::is_plain_pair;
use crate::putting::can_be_put;
use crate::seen_pair::is_later;
use lfs_block::{Blocks, Image, put_blocks_stand};
use lfs_meta::revision;
use lfs_pair::part_block;
use lfs_tag::laws::{erased_block, log_is_read};
use std::alloc::{AllocError, Global};

/// The blocks before this one are those of the root's first pair.
pub(crate) const ROOT_END: u32 = 2;

/// Lowers a block of an image. Takes memory.
pub(crate) fn lower_block(alloc: Global, image: &mut Image, number: u32) -> Result<(), AllocError>
    requires { number < image.old.disk.count }
    ensures { OnOk result (IsBlockLowered image.old.disk image.new.disk number) }
{
    put_blocks_stand();
    lowered_blocks_are_read();
    let _fits_the_limits = image.size();
    let block = lowered_block(alloc, number < ROOT_END, image.block(number))?;
    image.write_block(number, &block);
    Ok(())
}

/// Whether version 2.1 reads a commit of a block. Takes memory.
fn has_commit(alloc: Global, block: &[u8]) -> Result<bool, AllocError>
    requires { 4 ≤ length block.now }
    ensures { IfOk result (λ has. (in_root : Bool) → is_some (lowered_tags in_root block.now) ≡ has) }
{
    let kept = kept_edits(alloc, false, block)?;
    Ok(kept.is_some())
}

/// The block of a pair that is tried first, since its revision is the later one, and the other one.
fn tried_first<B: Blocks>(blocks: &B, pair: (u32, u32)) -> (u32, u32)
    requires first { pair.0 < (B.disk blocks.now).count }
    requires second { pair.1 < (B.disk blocks.now).count }
    ensures { result ≡ tried_first (B.disk blocks.now) pair }
{
    let _fits_the_limits = blocks.size();
    let first = revision(blocks.block(pair.0));
    let second = revision(blocks.block(pair.1));
    if is_later(second, first) {
        (pair.1, pair.0)
    } else {
        pair
    }
}

/// The block of a pair that version 2.1 takes for the live one, and the one beside it. Takes memory.
fn later_live<B: Blocks>(
    alloc: Global,
    blocks: &B,
    pair: (u32, u32),
) -> Result<(u32, u32), AllocError>
    requires first { pair.0 < (B.disk blocks.now).count }
    requires second { pair.1 < (B.disk blocks.now).count }
    ensures { IfOk result (λ found. IsLaterLive (B.disk blocks.now) pair found.0 found.1) }
{
    let _fits_the_limits = blocks.size();
    let (tried, beside) = tried_first(blocks, pair);
    if has_commit(alloc, blocks.block(tried))? {
        return Ok((tried, beside));
    }
    Ok((beside, tried))
}

/// The block of a pair written anew from the entries that version 2.1 reads of it, with this revision; `None` if it reads no part, or the
/// part has no room. Takes memory.
fn block_anew<B: Blocks>(
    alloc: Global,
    image: &B,
    pair: (u32, u32),
    number: u32,
) -> Result<Option<Vec<u8>>, AllocError>
    requires first { pair.0 < (B.disk image.now).count }
    requires second { pair.1 < (B.disk image.now).count }
    ensures { IfOk result (λ found. IfSome found (λ block. IsReadFor (B.disk image.now) pair block.items)) }
{
    let Some(part) = later_part_at(alloc, image, pair)? else {
        return Ok(None);
    };
    if !can_be_put(&part, image.size(), image.count()) {
        return Ok(None);
    }
    let block = part_block(alloc, image.size(), number, &part)?;
    Ok(Some(block))
}

/// What the live block of a pair is written as: that of the root's first pair anew, since its superblock states another version, and each
/// other one lowered. Takes memory.
fn block_for<B: Blocks>(
    alloc: Global,
    image: &B,
    pair: (u32, u32),
    live: u32,
) -> Result<Vec<u8>, AllocError>
    requires first { pair.0 < (B.disk image.now).count }
    requires second { pair.1 < (B.disk image.now).count }
    requires live { (beside : ℕ) × IsLaterLive (B.disk image.now) pair live beside }
    ensures { IfOk result (λ block. IsReadFor (B.disk image.now) pair block.items) }
{
    lowered_blocks_are_read();
    erased_block();
    log_is_read();
    let _fits_the_limits = image.size();
    let old = image.block(live);
    if live < ROOT_END {
        if let Some(block) = block_anew(alloc, image, pair, revision(old))? {
            return Ok(block);
        }
    }
    lowered_block(alloc, live < ROOT_END, old)
}

/// Lowers a pair: it holds what version 2.1 reads of it then. A pair of which version 2.0 reads that already stays as it is. In another one
/// the block that version 2.1 takes for the live one keeps its place and its revision, and says all in one commit; the one beside it is
/// erased, unless it says nothing. The superblock states 2.0 in the place of 2.1. If memory is refused, the live block may be written. Takes memory.
pub fn lower_pair<B: Rewrite>(
    alloc: Global,
    image: &mut B,
    pair: (u32, u32),
) -> Result<(), AllocError>
    requires apart { pair.0 ≢ pair.1 }
    requires first { pair.0 < (B.disk image.old).count }
    requires second { pair.1 < (B.disk image.old).count }
    ensures { OnOk result (IsPairLowered (B.disk image.old) (B.disk image.new) pair) }
{
    erased_block();
    log_is_read();
    let _fits_the_limits = image.size();
    if is_plain_pair(alloc, image, pair)? {
        return Ok(());
    }
    let (live, beside) = later_live(alloc, image, pair)?;
    let block = block_for(alloc, image, pair, live)?;
    write_alone(alloc, image, live, beside, &block)
}
