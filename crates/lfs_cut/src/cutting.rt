//! How the parts of an outline that a command set are cut.

ghost use Rattle.std.specs.Prelude.{◌≡◌, ◌≤◌, ◌++◌, All, drop, map, take, IfOk, OnOk};
ghost use Rattle.std.specs.List.{list_any};
ghost use Rattle.lfs_meta.specs.Runs.{later_runs};
ghost use Rattle.lfs_cut.specs.Chosen.{chosen_for};
ghost use Rattle.lfs_fs.specs.Directory.{parts, thread};
ghost use Rattle.lfs_command.specs.Cut.{HasEnough, cut, more_parts};
ghost use Rattle.lfs_cut.specs.Front.{IsCleanFrom};
ghost use Rattle.lfs_cut.specs.CutParts.{cut_all, directory_by, head_by, tail_by, with_first_run};
ghost use Rattle.lfs_law.specs.PartsCut.{runs_by};

use crate::block_room::{BlockRoom, begun_run, block_room};
use crate::new_pairs::NewPairs;
use crate::splitting::split;
use lfs_fs::{
    Delta, Outline, OutlineDirectory, OutlineEntry, OutlinePart, entries_are_cut_greedily,
};
use lfs_meta::lists_have_a_run;
use std::alloc::{AllocError, Global};

/// The pairs of the first row for a part; none where there is no row.
fn pairs_for<'a>(rows: &'a [NewPairs], part: &OutlinePart) -> &'a [(u32, u32)]
    ensures { result.now ≡ chosen_for rows.now part.now }
{
    'each: for row in rows {
        if part.pair.0 == row.pair.0 && part.pair.1 == row.pair.1 {
            return &row.pairs;
        }
    }
    &[]
}

/// Leaves a part its first run, and hands out the others. Want of memory takes the part's entries.
fn split_part(
    alloc: Global,
    room: BlockRoom,
    part: &mut OutlinePart,
) -> Result<Vec<Vec<OutlineEntry>>, AllocError>
    ensures first { OnOk result (part.new ≡ with_first_run room.bytes room.superblock part.old) }
    ensures others { IfOk result (λ runs. map (λ run. run.items) runs.items ≡ later_runs (runs_by room.bytes room.superblock part.old)) }
{
    lists_have_a_run::<OutlineEntry>();
    let (taken, len) = begun_run(room, part.pair);
    let entries = std::mem::replace(&mut part.entries, Vec::new(alloc));
    let mut runs = split(alloc, entries, room.bytes, taken, len)?;
    part.entries = runs.remove(0);
    Ok(runs)
}

/// New parts for runs, in these pairs; runs for which there is no pair are dropped.
fn new_parts(
    alloc: Global,
    runs: Vec<Vec<OutlineEntry>>,
    pairs: &[(u32, u32)],
) -> Result<Vec<OutlinePart>, AllocError>
    ensures { IfOk result (λ parts. parts.items ≡ more_parts pairs.now (map (λ run. run.items) runs.items)) }
{
    let mut parts = Vec::new(alloc);
    let mut left = pairs;
    'each: for entries in runs {
        let Some((pair, others)) = left.split_first() else {
            return Ok(parts);
        };
        parts.push(OutlinePart {
            pair: *pair,
            entries,
            delta: Delta::none(),
            dirty: true,
        })?;
        left = others;
    }
    Ok(parts)
}

/// Cuts a part where it is set: it keeps its first run, and the others go to new parts, which are handed out. Want of memory
/// takes the part's entries.
fn cut_part(
    alloc: Global,
    room: BlockRoom,
    part: &mut OutlinePart,
    rows: &[NewPairs],
) -> Result<Vec<OutlinePart>, AllocError>
    ensures head { OnOk result (part.new ≡ head_by room.bytes room.superblock part.old) }
    ensures tail { IfOk result (λ parts. parts.items ≡ tail_by room.bytes room.superblock rows.now part.old) }
{
    if !part.dirty {
        return Ok(Vec::new(alloc));
    }
    let runs = split_part(alloc, room, part)?;
    let parts = new_parts(alloc, runs, pairs_for(rows, part))?;
    Ok(parts)
}

/// Cuts each of some parts that is set, and puts each and its new parts behind others. Want of memory takes parts.
fn cut_parts(
    alloc: Global,
    room: BlockRoom,
    parts: Vec<OutlinePart>,
    behind: Vec<OutlinePart>,
    rows: &[NewPairs],
) -> Result<Vec<OutlinePart>, AllocError>
    ensures { IfOk result (λ all. all.items ≡ behind.items ++ cut_all room.bytes room.superblock rows.now parts.items) }
{
    let mut all = behind;
    'each: for part in parts {
        let mut part = part;
        let mut new = cut_part(alloc, room, &mut part, rows)?;
        all.push(part)?;
        all.append(&mut new)?;
    }
    Ok(all)
}

/// Cuts each part of a directory that is set. Want of memory takes parts.
fn cut_each_part(
    alloc: Global,
    room: BlockRoom,
    directory: &mut OutlineDirectory,
    rows: &[NewPairs],
) -> Result<(), AllocError>
    ensures { OnOk result (directory.new ≡ directory_by room.bytes room.superblock rows.now directory.old) }
{
    let new = cut_part(alloc, room, &mut directory.parts.first, rows)?;
    let more = std::mem::replace(&mut directory.parts.more, Vec::new(alloc));
    directory.parts.more = cut_parts(alloc, room, more, new, rows)?;
    Ok(())
}

/// Whether a part is set.
fn is_set(part: &OutlinePart) -> bool
    ensures { result ≡ part.now.dirty }
{
    part.dirty
}

/// Whether some part is set.
fn any_set(parts: &[OutlinePart]) -> bool
    ensures { result ≡ list_any (λ p. p.dirty) parts.now }
{
    parts.iter().any(|part| is_set(part))
}

/// Whether some part of a directory is set.
fn has_set_part(directory: &OutlineDirectory) -> bool
    ensures { result ≡ list_any (λ p. p.dirty) (parts directory.now) }
{
    is_set(&directory.parts.first) || any_set(&directory.parts.more)
}

/// Cuts each part of a directory that is set; a directory without one is not touched. Want of memory takes parts.
fn cut_directory(
    alloc: Global,
    room: BlockRoom,
    directory: &mut OutlineDirectory,
    rows: &[NewPairs],
) -> Result<(), AllocError>
    ensures { OnOk result (directory.new ≡ directory_by room.bytes room.superblock rows.now directory.old) }
{
    if has_set_part(directory) {
        cut_each_part(alloc, room, directory, rows)?;
    }
    Ok(())
}

/// Cuts each part of so many directories in front that is set. Want of memory takes parts.
fn cut_directories(
    alloc: Global,
    room: BlockRoom,
    directories: &mut Vec<OutlineDirectory>,
    front: usize,
    rows: &[NewPairs],
) -> Result<(), AllocError>
    ensures { OnOk result (directories.new.items ≡ map (directory_by room.bytes room.superblock rows.now) (take front directories.old.items)
        ++ drop front directories.old.items) }
{
    let end = front.min(directories.len());
    'each: for at in 0..end {
        cut_directory(alloc, room, &mut directories[at], rows)?;
    }
    Ok(())
}

/// Cuts each part of an outline that is set: it keeps its first run, and the others go to new parts right behind it, in the pairs of its
/// row. Want of memory leaves an outline that is cut in part, and lacks entries.
pub fn cut(
    alloc: Global,
    outline: &mut Outline,
    front: usize,
    rows: &[NewPairs],
) -> Result<(), AllocError>
    requires size { outline.old.size ≤ 65536 }
    requires front { IsCleanFrom front outline.old.directories }
    requires enough { All (HasEnough (chosen_for rows.now) outline.old) (thread outline.old.directories) }
    ensures cut { OnOk result (outline.new ≡ cut (chosen_for rows.now) outline.old) }
    ensures front { OnOk result (IsCleanFrom front outline.new.directories) }
{
    entries_are_cut_greedily();
    if rows.is_empty() {
        return Ok(());
    }
    let room = block_room(outline);
    cut_directories(alloc, room, &mut outline.directories, front, rows)?;
    Ok(())
}
