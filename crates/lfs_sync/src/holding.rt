//! The rows of an image at a path and below.

ghost use Rattle.std.specs.Prelude.{◌≡◌, IfOk, OnOk, Some, is_some, true};
ghost use Rattle.lfs_block.specs.Disk.{Disk};
ghost use Rattle.lfs_command.specs.PathMap.{below};
ghost use Rattle.lfs_fs.specs.Listed.{rows_listed};
ghost use Rattle.lfs_listing.specs.Comparing.{AreComplete};
ghost use Rattle.lfs_sync.specs.Shown.{held_of};
ghost use Rattle.lfs_listing.specs.Below.{names};
ghost use Rattle.lfs_sync.specs.Sides.{CanBeRead, HoldsMore, held_all};

use crate::held_row::HeldRow;
use lfs_fs::{Row, Rows};
use lfs_listing::{follow_row, is_below};
use std::alloc::{AllocError, Global};

/// What is left of a path behind another.
fn rest_of<'a>(alloc: Global, path: &[&'a [u8]], at: &[&[u8]]) -> Result<Vec<&'a [u8]>, AllocError>
    requires { is_some (below (names at.now) (names path.now)) ≡ true }
    ensures { IfOk result (λ rest. below (names at.now) (names path.now) ≡ Some (names rest.items)) }
{
    prove!(at.len() <= path.len());
    Vec::from_slice(alloc, &path[at.len()..])
}

/// Holds a row of an image behind others, if it is at a path or below.
fn hold_row<'a>(
    alloc: Global,
    held: &mut Vec<HeldRow<'a>>,
    at: &[&[u8]],
    path: &[&'a [u8]],
    row: Row<'a>,
) -> Result<(), AllocError>
    ensures { OnOk result (HoldsMore (below (names at.now) (names path.now)) row.entry held.old.items held.new.items) }
{
    if !is_below(path, at) {
        return Ok(());
    }
    let rest = rest_of(alloc, path, at)?;
    held.push(HeldRow { path: rest, row })?;
    Ok(())
}

/// The rows of an image at a path and below, in the order of paths.
pub(crate) fn held_rows<'a>(
    alloc: Global,
    rows: Rows<'a>,
    at: &[&[u8]],
) -> Result<Vec<HeldRow<'a>>, AllocError>
    ensures shown { IfOk result (λ held. (d : Disk) → held_all d held.items ≡ held_of d (names at.now) (rows_listed rows.entry)) }
    ensures complete { IfOk result (λ held. (d : Disk) → AreComplete d (rows_listed rows.entry) → CanBeRead d held.items) }
{
    let mut path = Vec::new(alloc);
    let mut held = Vec::new(alloc);
    for row in rows {
        follow_row(&mut path, &row)?;
        hold_row(alloc, &mut held, at, &path, row)?;
    }
    Ok(held)
}
