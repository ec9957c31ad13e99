//! Places of entries, looked up and listed.

ghost use Rattle.std.specs.Prelude.{◌≡◌, ◌++◌, OnOk, IfOk, IfSome, length, slice_get};
ghost use Rattle.std.specs.Option.{option_map};
ghost use Rattle.lfs_fs.specs.Entry.{target};
ghost use Rattle.lfs_fs.specs.Directory.{parts};
ghost use Rattle.lfs_fs.specs.Placed.{entry_in_directories, listed_at, places_in};

use crate::outline::Outline;
use crate::outline_directory::OutlineDirectory;
use crate::outline_entry::OutlineEntry;
use crate::place::Place;
use crate::thread_reading::ROOT;
use crate::waiting::Waiting;
use std::alloc::AllocError;

/// The entry at a place of directories.
pub(crate) fn entry_in_directories<'a>(
    directories: &'a [OutlineDirectory],
    place: Place,
) -> Option<&'a OutlineEntry>
    ensures { option_map (λ e. e.now) result ≡ entry_in_directories directories.now place }
{
    directories
        .get(usize::from(place.directory))?
        .part(usize::from(place.part))?
        .entry(usize::from(place.entry))
}

/// The directory to which the entry at a place leads, as a set of blocks.
pub(crate) fn target_of(outline: &Outline, place: Place) -> Option<(u32, u32)>
    ensures { result ≡ target (listed_at outline.now place).entry }
{
    if place.depth == 0 {
        return Some(ROOT);
    }
    entry_in_directories(&outline.directories, place)?.target()
}

/// A number of a place, which counts as want of memory where a place has no room for it.
fn number(value: usize) -> Result<u16, AllocError>
    ensures { IfOk result (λ number. number ≡ value) }
{
    u16::try_from(value).map_err(|_| AllocError)
}

/// The number of entries of a directory's part; none where there is no such part. It counts as want of memory where a place has no room for
/// it.
fn part_len(directory: &OutlineDirectory, part: u16) -> Result<u16, AllocError>
    ensures { IfOk result (λ len. IfSome (slice_get (parts directory.now) part) (λ p. len ≡ length p.entries)) }
{
    match directory.part(usize::from(part)) {
        Some(part) => number(part.len()),
        None => Ok(0),
    }
}

/// Puts the places of a directory's entries before those that wait. Takes memory; it counts as want of it where a place has
/// no room for a number.
fn push_parts(
    waiting: &mut Waiting,
    depth: u16,
    index: u16,
    directory: &OutlineDirectory,
) -> Result<(), AllocError>
    ensures { OnOk result (waiting.new ≡ places_in depth index 0 (parts directory.now) ++ waiting.old) }
{
    let mut part = number(directory.len())?;
    while part > 0 {
        part -= 1;
        let len = part_len(directory, part)?;
        waiting.push_part(depth, index, part, len)?;
    }
    Ok(())
}

/// Puts the places of a directory's entries before those that wait. Takes memory; it counts as want of it where a place has
/// no room for a number.
pub(crate) fn push_directory(
    waiting: &mut Waiting,
    depth: usize,
    index: usize,
    directory: &OutlineDirectory,
) -> Result<(), AllocError>
    ensures { OnOk result (waiting.new ≡ places_in depth index 0 (parts directory.now) ++ waiting.old) }
{
    push_parts(waiting, number(depth)?, number(index)?, directory)
}
