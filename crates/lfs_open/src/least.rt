//! How many blocks a packed image gets.

ghost use Rattle.std.specs.Prelude.{◌≤◌, IfOk};
ghost use Rattle.lfs_exchange.specs.Handing.{most_image};
ghost use Rattle.lfs_fs.specs.Superblock.{IsLimits};
ghost use Rattle.lfs_open.specs.Extent.{IsExtent};
ghost use Rattle.lfs_open.specs.Repacking.{IsExtentFor, IsFilled};
ghost use Rattle.lfs_request.specs.declared.extent.Extent.TheVariants.{Least};

use lfs_block::geometry_ok;
use lfs_command::Refusal;
use lfs_fs::Limits;
use lfs_pack::{PackRow, least_count, most_count};
use lfs_request::Extent;
use std::alloc::{AllocError, Global};

/// The least number of blocks of an image.
const MIN_BLOCK_COUNT: u32 = 2;

/// How many blocks a packed image gets; where none holds its rows, as many as an image of this block size has at most, in which
/// packing them says why. Takes memory.
pub fn counted(
    alloc: Global,
    size: u32,
    extent: Extent,
    limits: Limits,
    rows: &[PackRow<'_>],
) -> Result<u32, AllocError>
    requires { IsLimits limits }
    ensures { IfOk result (IsExtent size limits rows.now extent) }
{
    match extent {
        Extent::Count(count) => Ok(count),
        Extent::Least => least(alloc, size, limits, rows),
    }
}

/// How many blocks an image gets that is made of another one of `len` bytes, which is at most as long as an image may be: those that are
/// said, or as few as hold so many bytes. Takes memory.
pub fn counted_for(
    alloc: Global,
    size: u32,
    extent: Option<Extent>,
    limits: Limits,
    rows: &[PackRow<'_>],
    len: u32,
) -> Result<u32, AllocError>
    requires limits { IsLimits limits }
    requires len { len ≤ most_image }
    ensures { IfOk result (IsExtentFor len size limits rows.now extent) }
{
    match extent {
        Some(extent) => counted(alloc, size, extent, limits, rows),
        None => Ok(filled_count(size, len)),
    }
}

/// As few blocks of a size as hold so many bytes.
fn filled_count(size: u32, len: u32) -> u32
    requires { len ≤ most_image }
    ensures { IsFilled size len result }
{
    if size == 0 {
        return 0;
    }
    let complete = len / size;
    if len % size == 0 {
        complete
    } else {
        complete + 1
    }
}

/// The least number of blocks that holds rows; of a size that no block has, as few as an image has.
fn least(alloc: Global, size: u32, limits: Limits, rows: &[PackRow<'_>]) -> Result<u32, AllocError>
    requires { IsLimits limits }
    ensures { IfOk result (IsExtent size limits rows.now Least) }
{
    if !geometry_ok(size, MIN_BLOCK_COUNT) {
        return Ok(MIN_BLOCK_COUNT);
    }
    match least_count(alloc, size, limits, rows) {
        Ok(count) => Ok(count),
        Err(Refusal::Memory) => Err(AllocError),
        Err(_) => Ok(most_count(size)),
    }
}
