//! The least number of blocks that holds rows of paths.

ghost use Rattle.std.specs.Prelude.{◌≡◌, IfErr, IfOk, List};
ghost use Rattle.lfs_block.specs.Geometry.{IsBlockSize, IsGeometry};
ghost use Rattle.lfs_fs.specs.Superblock.{IsLimits};
ghost use Rattle.lfs_pack.specs.Least.{IsLeastCount, most_count};
ghost use Rattle.lfs_pack.specs.Packed.{AreRowsOf, Packed};
ghost use Rattle.lfs_pack.specs.Packing.{RefusesPack};

use crate::pack_row::PackRow;
use crate::packing::packed_image;
use crate::packing_laws::packing_laws;
use lfs_block::{Blocks, MAX_BLOCK_COUNT, MAX_IMAGE_LENGTH};
use lfs_command::Refusal;
use lfs_fs::Limits;
use std::alloc::Global;

/// The most blocks of an image, where they are small.
const MOST_BLOCKS: u64 = MAX_BLOCK_COUNT as u64;

/// How many blocks an image of blocks of `size` bytes has at most.
pub fn most_count(size: u32) -> u32
    requires { IsBlockSize size }
    ensures value { result ≡ most_count size }
    ensures geometry { IsGeometry size result }
{
    let most = MAX_IMAGE_LENGTH / u64::from(size);
    most.min(MOST_BLOCKS) as u32
}

/// The least number of blocks of `size` bytes of an image with these limits that holds the rows. It is how many blocks what the rows say
/// uses in an image of as many blocks as one may have: the first ones, in an order that doesn't depend on how many there are. A refusal is
/// one of an image of as many blocks as one may have. Takes memory for such an image.
pub fn least_count(
    alloc: Global,
    size: u32,
    limits: Limits,
    rows: &[PackRow<'_>],
) -> Result<u32, Refusal>
    requires size { IsBlockSize size }
    requires limits { IsLimits limits }
    ensures count { IfOk result (λ count. (packed : List Packed) → AreRowsOf rows.now packed → IsLeastCount size limits packed count) }
    ensures refused { IfErr result (λ r. (packed : List Packed) → AreRowsOf rows.now packed
        → RefusesPack size (most_count size) limits packed r) }
{
    packing_laws();
    let most = most_count(size);
    let mut at = 0;
    let new = packed_image(alloc, size, most, limits, rows, &mut at)?;
    Ok(new.image.count() - new.used.free_count())
}
