//! The blocks of a file that is written.

ghost use Rattle.std.specs.Prelude.{◌≡◌, ◌<◌, ◌≤◌, ◌^◌, length, map, IfOk, IfSome};
ghost use Rattle.lfs_block.specs.Geometry.{IsBlockSize};
ghost use Rattle.lfs_file.specs.Capacity.{capacity, least_blocks, pointers};
ghost use Rattle.lfs_file.specs.Laying.{filled, laid, laid_pointers};

use crate::capacity::{capacity_of, pointers_of};
use std::alloc::{AllocError, Global};

/// What stands behind the contents in a file's last block.
const FREE: u8 = 0xff;

/// Block `n` of a file: its pointers, the bytes of the file that it holds, and 0xff up to the block size.
fn filled(
    alloc: Global,
    part: &[u8],
    blocks: &[u32],
    n: usize,
    block_size: u32,
) -> Result<Vec<u8>, AllocError>
    requires size { IsBlockSize block_size }
    requires within { n < length blocks.now }
    requires few { length blocks.now < 2 ^ 32 }
    requires fits { length part.now ≤ capacity block_size n }
    ensures { IfOk result (λ block. block.items ≡ filled block_size part.now blocks.now n) }
{
    let mut block = Vec::with_capacity(alloc, block_size as usize)?;
    for i in 0..pointers_of(n as u32) as usize {
        block.extend_from_slice(&blocks[n - (1 << i)].to_le_bytes())?;
    }
    block.extend_from_slice(part)?;
    block.resize(block_size as usize, FREE)?;
    Ok(block)
}

/// The blocks of a file of these bytes, in the blocks of these numbers, from the first one on: each its pointers, the
/// bytes of the file that it holds, and 0xff behind the last of them. `None` where memory is refused.
///
/// Source: DESIGN.md, "CTZ skip-lists".
pub fn lay(alloc: Global, bytes: &[u8], blocks: &[u32], block_size: u32) -> Option<Vec<Vec<u8>>>
    requires size { IsBlockSize block_size }
    requires many { length blocks.now ≡ least_blocks block_size (length bytes.now) }
    requires few { length blocks.now < 2 ^ 32 }
    ensures { IfSome result (λ all. map (λ block. block.items) all.items ≡ laid block_size bytes.now blocks.now) }
{
    let mut all = Vec::with_capacity(alloc, blocks.len()).ok()?;
    let mut rest = bytes;
    for n in 0..blocks.len() {
        let room = capacity_of(block_size, n as u32) as usize;
        let (part, later) = rest.split_at(room.min(rest.len()));
        all.push(filled(alloc, part, blocks, n, block_size).ok()?)
            .ok()?;
        rest = later;
    }
    Some(all)
}
