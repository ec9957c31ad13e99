//! How many blocks rows need that have no room, as it is told.

ghost use Rattle.std.specs.Prelude.{◌≡◌};
ghost use Rattle.lfs_fs.specs.Superblock.{IsLimits};

use crate::stated::Statement;
use crate::stop::Stop;
use lfs_block::geometry_ok;
use lfs_command::Refusal;
use lfs_fs::Limits;
use lfs_pack::{PackRow, least_count};
use lfs_request::Fault;
use std::alloc::Global;

/// The least number of blocks of an image.
const MIN_BLOCK_COUNT: u32 = 2;

/// Why packing rows into blocks of `size` bytes ended early; where they have no room, with how many blocks they need. Takes memory,
/// and tells of no number where it is refused.
pub fn with_need(alloc: Global, size: u32, limits: Limits, rows: &[PackRow<'_>], stop: Stop) -> Stop
    requires { IsLimits limits }
    ensures { result.fault ≡ stop.fault }
{
    let Fault::Refused(Refusal::NoSpace { .. }) = stop.fault else {
        return stop;
    };
    stop.with(need_of(alloc, size, limits, rows))
}

/// How many blocks rows need, as it is told.
fn need_of(alloc: Global, size: u32, limits: Limits, rows: &[PackRow<'_>]) -> Option<Statement>
    requires { IsLimits limits }
{
    if !geometry_ok(size, MIN_BLOCK_COUNT) {
        return None;
    }
    match least_count(alloc, size, limits, rows) {
        Ok(count) => Some(Statement::Need(Some(count))),
        Err(Refusal::NoSpace { .. }) => Some(Statement::Need(None)),
        Err(_) => None,
    }
}
