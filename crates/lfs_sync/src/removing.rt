//! What removes a part of an image's tree.

ghost use Rattle.std.specs.Prelude.{◌≡◌, [], List, IfOk};
ghost use Rattle.lfs_block.specs.Disk.{Disk};
ghost use Rattle.lfs_sync.specs.Planned.{IsPlanOf, in_texts, plan_asked};
ghost use Rattle.lfs_sync.specs.Shown.{held_of};
ghost use Rattle.lfs_listing.specs.Below.{names};
ghost use Rattle.lfs_sync.specs.Sides.{held_all};
ghost use Rattle.lfs_sync.specs.Synced.{removals, remove_commands};
ghost use Rattle.lfs_sync.specs.declared.planned.PlannedKind.TheVariants as kind;
ghost use Rattle.lfs_sync.specs.declared.sync_row.SyncRow.{SyncRow};

use crate::held_row::HeldRow;
use crate::holding::held_rows;
use crate::planned::{Planned, PlannedKind};
use crate::planning::{alone, planned};
use crate::texts::names_in;
use lfs_fs::Mounted;
use std::alloc::{AllocError, Global};

/// Removes all of some rows, the last path first.
fn removals_of(
    alloc: Global,
    at: &[&[u8]],
    held: &[HeldRow<'_>],
) -> Result<Vec<Planned>, AllocError>
    ensures { IfOk result (λ plan. (d : Disk) (rows : List SyncRow)
        → plan_asked rows plan.items ≡ in_texts (removals (names at.now) (held_all d held.now) [])) }
{
    let mut plan = Vec::new(alloc);
    'each: for row in held {
        plan.push(planned(alloc, at, &row.path, PlannedKind::Removal)?)?;
    }
    plan.reverse();
    Ok(plan)
}

/// The commands that remove what stands at a path of an image and all below it, the last path first. The root, and a path where nothing is,
/// have one command, which is refused as by `rm`; and so has a text that spells no path. Want of memory is the only refusal.
pub fn remove_plan(alloc: Global, mounted: &Mounted, at: &[u8]) -> Result<Vec<Planned>, AllocError>
    ensures { IfOk result (λ plan. (d : Disk) (rows : List SyncRow)
        → IsPlanOf at.now kind.Removal (λ path. remove_commands path (held_of d path mounted.now.rows)) rows (plan_asked rows plan.items)) }
{
    let Some(names) = names_in(alloc, at)? else {
        return alone(alloc, at, PlannedKind::Removal);
    };
    if names.is_empty() {
        return alone(alloc, at, PlannedKind::Removal);
    }
    let held = held_rows(alloc, mounted.rows(), &names)?;
    if held.is_empty() {
        return alone(alloc, at, PlannedKind::Removal);
    }
    removals_of(alloc, &names, &held)
}
