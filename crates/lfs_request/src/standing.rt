//! Where something stands in a mounted image.

ghost use Rattle.std.specs.Prelude.{IfErr, IfOk, map};
ghost use Rattle.lfs_fs.specs.Mounted.{IsMountOf};
ghost use Rattle.lfs_request.specs.Standing.{IsDirectoryThere, IsPathThere, RefusesDirectory, RefusesListing};

use lfs_block::Blocks;
use lfs_command::{Refusal, names_of};
use lfs_draft::entry_there;
use lfs_fs::{Mounted, outlines_are_sound, rows_show_the_tree};
use lfs_law::outlines_are_judged_alike;
use std::alloc::Global;

/// The names of the path of a mounted image that a text spells, where something stands: `BadPath` where it spells none; else the first of
/// these that holds: a front of the path isn't there (`NotFound`) or is a file (`NotADirectory`); nothing is at the path (`NotFound`).
/// `Memory` says only that a growth was refused.
pub fn names_there<'a, B: Blocks>(
    alloc: Global,
    disk: &B,
    mounted: &Mounted,
    path: &'a [u8],
) -> Result<Vec<&'a [u8]>, Refusal>
    requires { IsMountOf (B.disk disk.now) mounted.now }
    ensures there { IfOk result (λ at. IsPathThere (B.disk disk.now) mounted.now path.now (map (λ n. n.now) at.items)) }
    ensures refused { IfErr result (λ refusal. RefusesListing (B.disk disk.now) path.now refusal) }
{
    rows_show_the_tree();
    outlines_are_judged_alike();
    outlines_are_sound();
    let _within_limits = disk.size();
    let names = names_of(alloc, path)?;
    if names.is_empty() {
        return Ok(names);
    }
    entry_there(mounted.outline(), &names)?;
    Ok(names)
}

/// The names of the path of a directory of a mounted image that a text spells: refused as any path is, else `NotADirectory` where a file
/// stands at the path.
pub fn names_of_directory<'a, B: Blocks>(
    alloc: Global,
    disk: &B,
    mounted: &Mounted,
    path: &'a [u8],
) -> Result<Vec<&'a [u8]>, Refusal>
    requires { IsMountOf (B.disk disk.now) mounted.now }
    ensures there { IfOk result (λ at. IsDirectoryThere (B.disk disk.now) mounted.now path.now (map (λ n. n.now) at.items)) }
    ensures refused { IfErr result (λ refusal. RefusesDirectory (B.disk disk.now) path.now refusal) }
{
    rows_show_the_tree();
    outlines_are_judged_alike();
    outlines_are_sound();
    let _within_limits = disk.size();
    let at = names_of(alloc, path)?;
    if at.is_empty() {
        return Ok(at);
    }
    let entry = entry_there(mounted.outline(), &at)?;
    if entry.target().is_none() {
        return Err(Refusal::NotADirectory);
    }
    Ok(at)
}
