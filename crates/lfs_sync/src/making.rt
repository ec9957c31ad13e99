//! What makes a directory or a file with the parents that lack.

ghost use Rattle.std.specs.Prelude.{◌≡◌, ◌++◌, ◌∷◌, [], List, IfOk, OnOk, is_some, not};
ghost use Rattle.std.specs.Option.{unwrap_or};
ghost use Rattle.lfs_block.specs.Disk.{Disk};
ghost use Rattle.lfs_command.specs.Verdict.{is_directory};
ghost use Rattle.lfs_fs.specs.Mounted.{IsMountOf};
ghost use Rattle.lfs_fs.specs.Path.{path_text};
ghost use Rattle.lfs_fs.specs.Tree.{Dir, tree};
ghost use Rattle.lfs_sync.specs.Merging.{if_so};
ghost use Rattle.lfs_sync.specs.Planned.{IsPlanOf, in_texts, kind_asked, plan_asked};
ghost use Rattle.lfs_listing.specs.Below.{names};
ghost use Rattle.lfs_sync.specs.SyncRows.{bytes_at};
ghost use Rattle.lfs_sync.specs.Synced.{lacking, make_commands, making_node, put_commands};
ghost use Rattle.lfs_sync.specs.declared.planned.PlannedKind.TheVariants as kind;
ghost use Rattle.lfs_sync.specs.declared.sync_row.SyncRow.{SyncRow};

use crate::planned::{Planned, PlannedKind};
use crate::planning::{alone, planned};
use crate::texts::names_in;
use lfs_fs::{Mounted, Path};
use std::alloc::{AllocError, Global};

/// The path of these names.
fn path_of(alloc: Global, path: &[&[u8]]) -> Result<Path, AllocError>
    ensures { IfOk result (λ same. same ≡ names path.now) }
{
    let mut owned = Vec::new(alloc);
    'each: for name in path {
        owned.push(Vec::from_slice(alloc, name)?)?;
    }
    Ok(Path::new(owned))
}

/// Whether something stands at a path.
fn is_there(alloc: Global, mounted: &Mounted, path: &[&[u8]]) -> Result<bool, AllocError>
    ensures { IfOk result (λ is. is ≡ is_some (tree mounted.now.outline (names path.now))) }
{
    let path = path_of(alloc, path)?;
    Ok(mounted.find(&path).is_some())
}

/// Whether a directory stands at a path.
fn is_directory(alloc: Global, mounted: &Mounted, path: &[&[u8]]) -> Result<bool, AllocError>
    ensures { IfOk result (λ is. is ≡ is_directory (tree mounted.now.outline (names path.now))) }
{
    let path = path_of(alloc, path)?;
    match mounted.find(&path) {
        Some(found) => Ok(found.target().is_some()),
        None => Ok(false),
    }
}

/// Plans that a directory is made where nothing stands.
fn plan_parent(
    alloc: Global,
    mounted: &Mounted,
    plan: &mut Vec<Planned>,
    prefix: &[&[u8]],
) -> Result<(), AllocError>
    ensures { OnOk result ((rows : List SyncRow) → plan_asked rows plan.new.items ≡ plan_asked rows plan.old.items
        ++ in_texts (if_so (not (is_some (tree mounted.now.outline (names prefix.now)))) (making_node (names prefix.now) (Dir [])))) }
{
    if is_there(alloc, mounted, prefix)? {
        return Ok(());
    }
    let directory = planned(alloc, prefix, &[], PlannedKind::Directory)?;
    plan.push(directory)?;
    Ok(())
}

/// The directories that lack between the root and the last name of a path.
fn parents_of(alloc: Global, mounted: &Mounted, path: &[&[u8]]) -> Result<Vec<Planned>, AllocError>
    ensures { IfOk result (λ plan. (rows : List SyncRow)
        → plan_asked rows plan.items ≡ in_texts (lacking (tree mounted.now.outline) [] (names path.now))) }
{
    let mut plan = Vec::new(alloc);
    'fronts: for length in 1..path.len() {
        plan_parent(alloc, mounted, &mut plan, &path[..length])?;
    }
    Ok(plan)
}

/// A command on a path, behind those that make the parents that lack.
fn with_parents(
    alloc: Global,
    mounted: &Mounted,
    path: &[&[u8]],
    kind: PlannedKind,
) -> Result<Vec<Planned>, AllocError>
    ensures { IfOk result (λ plan. (rows : List SyncRow)
        → plan_asked rows plan.items ≡ in_texts (lacking (tree mounted.now.outline) [] (names path.now))
        ++ kind_asked rows (path_text (names path.now)) kind ∷ []) }
{
    let mut plan = parents_of(alloc, mounted, path)?;
    plan.push(planned(alloc, path, &[], kind)?)?;
    Ok(plan)
}

/// The commands that make a directory of an image, and the parents of it that lack, the first of them first: none where a directory is
/// there. A file that is there is refused as by `mkdir`, and so is a text that spells no path. Want of memory is the only refusal.
pub fn make_plan(alloc: Global, mounted: &Mounted, at: &[u8]) -> Result<Vec<Planned>, AllocError>
    ensures { IfOk result (λ plan. (d : Disk) (is : IsMountOf d mounted.now) (rows : List SyncRow)
        → IsPlanOf at.now kind.Directory (make_commands (tree is.volume)) rows (plan_asked rows plan.items)) }
{
    let Some(names) = names_in(alloc, at)? else {
        return alone(alloc, at, PlannedKind::Directory);
    };
    if is_directory(alloc, mounted, &names)? {
        return Ok(Vec::new(alloc));
    }
    with_parents(alloc, mounted, &names, PlannedKind::Directory)
}

/// The commands that put a file of an image, which gets the contents of the first row, and make its parents that lack, the first of them
/// first. A text that spells no path is refused as by `put`. Want of memory is the only refusal.
pub fn put_plan(alloc: Global, mounted: &Mounted, at: &[u8]) -> Result<Vec<Planned>, AllocError>
    ensures { IfOk result (λ plan. (d : Disk) (is : IsMountOf d mounted.now) (rows : List SyncRow)
        → IsPlanOf at.now (kind.File 0) (λ path. put_commands (tree is.volume) path (unwrap_or (bytes_at rows 0) [])) rows
        (plan_asked rows plan.items)) }
{
    let Some(names) = names_in(alloc, at)? else {
        return alone(alloc, at, PlannedKind::File(0));
    };
    with_parents(alloc, mounted, &names, PlannedKind::File(0))
}
