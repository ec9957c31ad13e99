//! What version 2.1 reads of a pair.

ghost use Rattle.std.specs.Prelude.{◌≡◌, ◌<◌, ◌++◌, IfOk, IfSome, IfNone, Some, None};
ghost use Rattle.std.specs.List.{AllByRecursion};
ghost use Rattle.lfs_block.specs.Disk.{block_of};
ghost use Rattle.lfs_meta.specs.Complete.{IsComplete};
ghost use Rattle.lfs_lower.specs.LaterReading.{later_part_of};
ghost use Rattle.lfs_lower.specs.Spelled.{is_root_block, lowered_block};

use crate::block::lowered_block;
use crate::laws::lowered_blocks_are_read;
use crate::lowering::ROOT_END;
use crate::superblocks::part_at;
use lfs_block::{Blocks, Image};
use lfs_meta::Part;
use std::alloc::{AllocError, Global};

/// The blocks of a pair lowered, one after the other. Takes memory.
fn both_lowered<B: Blocks>(
    alloc: Global,
    blocks: &B,
    pair: (u32, u32),
) -> Result<Vec<u8>, AllocError>
    requires first { pair.0 < (B.disk blocks.now).count }
    requires second { pair.1 < (B.disk blocks.now).count }
    ensures { IfOk result (λ both. both.items ≡ lowered_block (is_root_block pair.0) (block_of (B.disk blocks.now) pair.0)
        ++ lowered_block (is_root_block pair.1) (block_of (B.disk blocks.now) pair.1)) }
{
    let _fits_the_limits = blocks.size();
    let mut both = lowered_block(alloc, pair.0 < ROOT_END, blocks.block(pair.0))?;
    let second = lowered_block(alloc, pair.1 < ROOT_END, blocks.block(pair.1))?;
    both.extend_from_slice(&second)?;
    Ok(both)
}

/// The part that version 2.1 reads of a pair, the superblock stating 2.0 in the place of 2.1; `None` where it reads none. Takes memory.
pub fn later_part_at<B: Blocks>(
    alloc: Global,
    blocks: &B,
    pair: (u32, u32),
) -> Result<Option<Part>, AllocError>
    requires first { pair.0 < (B.disk blocks.now).count }
    requires second { pair.1 < (B.disk blocks.now).count }
    ensures none { IfOk result (λ part. IfNone part (later_part_of (B.disk blocks.now) pair ≡ None)) }
    ensures pair { IfOk result (λ part. IfSome part (λ p. p.0 ≡ pair)) }
    ensures found { IfOk result (λ part. IfSome part (λ p. later_part_of (B.disk blocks.now) pair ≡ Some p.1)) }
    ensures complete { IfOk result (λ part. IfSome part (λ p. AllByRecursion IsComplete p.1.entries)) }
{
    lowered_blocks_are_read();
    let size = blocks.size();
    let both = both_lowered(alloc, blocks, pair)?;
    let Ok(image) = Image::new(both, size) else {
        return Ok(None);
    };
    let Some(mut part) = part_at(alloc, &image, (0, 1))? else {
        return Ok(None);
    };
    part.pair = pair;
    Ok(Some(part))
}
