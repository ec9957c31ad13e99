//! What makes of a part of an image's tree what a folder holds.

ghost use Rattle.std.specs.Prelude.{◌≡◌, ◌++◌, List, IfOk, reverse};
ghost use Rattle.lfs_fs.specs.Mounted.{IsMountOf};
ghost use Rattle.lfs_sync.specs.Merging.{IsMerged};
ghost use Rattle.lfs_sync.specs.Planned.{IsPlanOf, in_texts, plan_asked};
ghost use Rattle.lfs_sync.specs.Shown.{Shown, ShownRise, held_of};
ghost use Rattle.lfs_listing.specs.Below.{names};
ghost use Rattle.lfs_sync.specs.Sides.{CanBeRead, held_all, wanted_all};
ghost use Rattle.lfs_sync.specs.SyncRows.{AreRowsOfFolder, SayFolder};
ghost use Rattle.lfs_sync.specs.Synced.{sync_commands};
ghost use Rattle.lfs_sync.specs.declared.planned.PlannedKind.TheVariants as kind;

use crate::held_row::HeldRow;
use crate::holding::held_rows;
use crate::merging::Merging;
use crate::planned::{Planned, PlannedKind};
use crate::planning::alone;
use crate::sync_row::SyncRow;
use crate::texts::names_in;
use crate::wanted_row::WantedRow;
use crate::wanting::wanted_rows;
use lfs_block::Blocks;
use lfs_fs::{Mounted, rows_show_the_tree};
use std::alloc::{AllocError, Global};

/// What is planned of rows of an image and of a folder.
fn merged<B: Blocks>(
    alloc: Global,
    disk: &B,
    at: &[&[u8]],
    rows: &[SyncRow<'_>],
    held: &[HeldRow<'_>],
    wanted: &[WantedRow<'_>],
) -> Result<Merging, AllocError>
    requires rise { ShownRise (held_all (B.disk disk.now) held.now) }
    requires rises { ShownRise (wanted_all rows.now wanted.now) }
    requires complete { CanBeRead (B.disk disk.now) held.now }
    ensures { IfOk result (λ m. IsMerged (names at.now) rows.now m (held_all (B.disk disk.now) held.now) (wanted_all rows.now wanted.now)) }
{
    let mut merging = Merging::new(alloc);
    'rows: while !merging.is_done(held, wanted) {
        merging.take_next(alloc, disk, at, rows, held, wanted)?;
    }
    Ok(merging)
}

/// What is planned, in one list: removals, the last path first, then directories, then files.
fn joined(merging: Merging) -> Result<Vec<Planned>, AllocError>
    ensures { IfOk result (λ plan. plan.items ≡ reverse merging.removed.items ++ merging.directories.items ++ merging.files.items) }
{
    let Merging {
        mut removed,
        mut directories,
        mut files,
        ..
    } = merging;
    removed.reverse();
    removed.append(&mut directories)?;
    removed.append(&mut files)?;
    Ok(removed)
}

/// What makes of rows of an image those of a folder.
fn planned_of<B: Blocks>(
    alloc: Global,
    disk: &B,
    at: &[&[u8]],
    rows: &[SyncRow<'_>],
    held: &[HeldRow<'_>],
    wanted: &[WantedRow<'_>],
) -> Result<Vec<Planned>, AllocError>
    requires rise { ShownRise (held_all (B.disk disk.now) held.now) }
    requires rises { ShownRise (wanted_all rows.now wanted.now) }
    requires complete { CanBeRead (B.disk disk.now) held.now }
    ensures { IfOk result (λ plan. plan_asked rows.now plan.items
        ≡ in_texts (sync_commands (names at.now) (held_all (B.disk disk.now) held.now) (wanted_all rows.now wanted.now))) }
{
    let merging = merged(alloc, disk, at, rows, held, wanted)?;
    joined(merging)
}

/// The commands by which what stands at a path of a mounted image becomes what a folder holds, in the order in which they are carried
/// out. What the folder hasn't, or has as another kind, is removed, the last path first. Then directories are made, and then files are
/// put, in the order of paths. What is equal, attributes aside, is left alone, and a file is read only where its length is the folder's.
/// A text that spells no path has one command, which is refused for that. Want of memory is the only refusal.
pub fn sync_plan<B: Blocks>(
    alloc: Global,
    disk: &B,
    mounted: &Mounted,
    at: &[u8],
    rows: &[SyncRow<'_>],
) -> Result<Vec<Planned>, AllocError>
    requires mounted { IsMountOf (B.disk disk.now) mounted.now }
    requires rows { SayFolder rows.now }
    ensures { IfOk result (λ plan. (wanted : List Shown) → AreRowsOfFolder rows.now wanted
        → IsPlanOf at.now kind.Directory (λ path. sync_commands path (held_of (B.disk disk.now) path mounted.now.rows) wanted) rows.now
        (plan_asked rows.now plan.items)) }
{
    rows_show_the_tree();
    let _size = disk.size();
    let Some(names) = names_in(alloc, at)? else {
        return alone(alloc, at, PlannedKind::Directory);
    };
    let held = held_rows(alloc, mounted.rows(), &names)?;
    let wanted = wanted_rows(alloc, rows)?;
    planned_of(alloc, disk, &names, rows, &held, &wanted)
}
