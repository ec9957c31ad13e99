//! What is told of what a device left unfinished in an image that is read as a device does.

use lfs_block::{Blocks, Image, MAX_BLOCK_COUNT};
use lfs_settle::{DroppedDirectory, Ended, EndedMove, EndedStep, unfinished};
use lfs_survey::{Area, BlocksText, Lines, Place, PlacedPath, Shown, Survey, survey_all};
use std::alloc::{AllocError, Global};

/// The most blocks that an image has.
const MOST_BLOCKS: usize = MAX_BLOCK_COUNT as usize;
/// What is told of a directory that no path leads to, if the image is read so.
const LEFT_OUT: &str = "that no path leads to is left out; salvage saves it";
/// The same if the image was taken over.
const DROPPED: &str = "that no path led to is dropped; salvage saves it from a copy made before";

/// What became of what a device left unfinished.
#[derive(Clone, Copy)]
pub(crate) enum Telling {
    /// The image is read as the device's next change leaves it.
    Read,
    /// The image was taken over.
    TakenOver,
}

/// What is ended of what a device left unfinished in the image of blocks of `size` bytes that bytes begin with, of all complete blocks that
/// are there; `None` if they are no image. Takes memory.
pub(crate) fn unfinished_within(
    alloc: Global,
    size: u32,
    bytes: &[u8],
) -> Result<Option<Ended>, AllocError> {
    let Some(count) = bytes.len().checked_div(size as usize) else {
        return Ok(None);
    };
    let mut own = Vec::from_slice(alloc, bytes)?;
    own.truncate(count.min(MOST_BLOCKS).saturating_mul(size as usize));
    match Image::new(own, size) {
        Ok(image) => Ok(Some(unfinished(alloc, &image)?)),
        Err(_) => Ok(None),
    }
}

/// Whether nothing is ended.
pub(crate) fn is_nothing(ended: &Ended) -> bool {
    ended.moved.is_none() && ended.dropped.is_empty() && ended.steps.is_empty()
}

/// The lines of an image in which this was ended: one for the entry that was being moved, one for each directory with entries that no path
/// leads to, and one for each directory that stands elsewhere than the thread says. Of them at most a hundred, and how many more there are.
/// Takes memory.
pub(crate) fn unfinished_lines<B: Blocks>(
    alloc: Global,
    image: &B,
    ended: &Ended,
    telling: Telling,
) -> Result<Vec<String>, AllocError> {
    let survey = survey_all(alloc, image)?;
    let mut lines = Lines::new(alloc);
    if let Some(moved) = &ended.moved {
        lines.add(Some(moved_line(alloc, &survey, moved, telling)?))?;
    }
    add_dropped(alloc, &mut lines, ended, telling)?;
    add_steps(alloc, &mut lines, &survey, ended, telling)?;
    lines.ended(alloc, "directories are left out, or stand elsewhere")
}

// ---- pairs of the survey

/// Whether two pairs have the same blocks.
fn same_blocks(one: (u32, u32), other: (u32, u32)) -> bool {
    one == other || one == (other.1, other.0)
}

/// The number of the call of a pair in an area.
fn call_of(area: &Area, pair: (u32, u32)) -> Option<usize> {
    for (number, call) in area.calls.iter().enumerate() {
        if same_blocks(call.pair, pair) {
            return Some(number);
        }
    }
    None
}

/// The path of the directory of a pair; `None` if the root doesn't lead there. Takes memory.
fn path_of(alloc: Global, survey: &Survey, pair: (u32, u32)) -> Result<Option<String>, AllocError> {
    let Some(root) = survey.areas.first() else {
        return Ok(None);
    };
    let Some(call) = call_of(root, pair) else {
        return Ok(None);
    };
    let path = PlacedPath::of_pair(alloc, survey, Place { area: 0, call })?;
    Ok(Some(format!(in alloc; "{path}")?))
}

// ---- lines

/// What is told of an entry that was being moved.
fn moved_line(
    alloc: Global,
    survey: &Survey,
    moved: &EndedMove,
    telling: Telling,
) -> Result<String, AllocError> {
    let what = match telling {
        Telling::Read => "was being moved; it is read at its new place",
        Telling::TakenOver => "was being moved; its old place is cleared",
    };
    let name = Shown {
        bytes: &moved.entry.name,
    };
    let blocks = BlocksText { pair: moved.pair };
    match path_of(alloc, survey, moved.pair)? {
        None => format!(in alloc; "{blocks}: {name} {what}"),
        Some(path) => {
            let at = path.as_str();
            let slash = if at == "/" { "" } else { "/" };
            format!(in alloc; "{at}{slash}{name} {what}")
        }
    }
}

/// What is told of a directory that no path leads to; nothing if it has no entry.
fn dropped_line(
    alloc: Global,
    dropped: &DroppedDirectory,
    telling: Telling,
) -> Result<Option<String>, AllocError> {
    let what = match telling {
        Telling::Read => LEFT_OUT,
        Telling::TakenOver => DROPPED,
    };
    let blocks = BlocksText { pair: dropped.pair };
    let line = match dropped.entries.len() {
        0 => return Ok(None),
        1 => format!(in alloc; "{blocks}: a directory with 1 entry {what}")?,
        count => format!(in alloc; "{blocks}: a directory with {count} entries {what}")?,
    };
    Ok(Some(line))
}

/// What is told of a directory that stands elsewhere than the thread says.
fn step_line(
    alloc: Global,
    survey: &Survey,
    step: &EndedStep,
    telling: Telling,
) -> Result<String, AllocError> {
    let names = match telling {
        Telling::Read => "names",
        Telling::TakenOver => "named",
    };
    let to = BlocksText { pair: step.to };
    let from = BlocksText { pair: step.from };
    match path_of(alloc, survey, step.to)? {
        None => {
            format!(in alloc;
                "{to}: a directory stands here, not in {from}, which the thread {names}"
            )
        }
        Some(path) => {
            let at = path.as_str();
            format!(in alloc; "{at} stands in {to}, not in {from}, which the thread {names}")
        }
    }
}

/// Adds a line for each directory that no path leads to.
fn add_dropped(
    alloc: Global,
    lines: &mut Lines,
    ended: &Ended,
    telling: Telling,
) -> Result<(), AllocError> {
    for dropped in &ended.dropped {
        if lines.takes_one() {
            lines.add(dropped_line(alloc, dropped, telling)?)?;
        }
    }
    Ok(())
}

/// Adds a line for each directory that stands elsewhere.
fn add_steps(
    alloc: Global,
    lines: &mut Lines,
    survey: &Survey,
    ended: &Ended,
    telling: Telling,
) -> Result<(), AllocError> {
    for step in &ended.steps {
        if lines.takes_one() {
            lines.add(Some(step_line(alloc, survey, step, telling)?))?;
        }
    }
    Ok(())
}
