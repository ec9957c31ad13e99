//! What is told of an image that is read: that an older state of a pair is, and that a directory goes on in a part without an entry.

use crate::fault_line::surveyed;
use crate::lines::Lines;
use crate::may_be_empty::may_be_empty;
use crate::noted_places::{empty_places, older_places};
use crate::place::Place;
use crate::placed_text::{PlacedPath, blocks_at};
use crate::survey::Survey;
use lfs_block::Image;
use lfs_damage::ends_damaged;
use std::alloc::{AllocError, Global};

/// What is told of a pair of which an older state is read.
const OLDER: &str =
    "a commit with a wrong checksum stands after the last one; an older state is read";
/// What is told of a part without an entry.
const EMPTY: &str = "littlefs lists this directory without end; repack mends it";

/// The most bytes that an image has.
const MOST_BYTES: usize = 0x0400_0000;
/// The most blocks that an image has.
const MOST_BLOCKS: usize = 0x1_0000;

/// The lines of an image of blocks of `size` bytes that is read of these bytes, in order: one for each pair of which an older state is read,
/// since a later commit is damaged; and, if `tells_empty`, one for each part without an entry in which a directory goes on. Of either at
/// most a hundred, and how many more there are. Pairs are read as a device does, if the image is read so. An image of which nothing is
/// told is looked through once, and neither copied nor surveyed. Takes memory.
pub fn image_notes(
    alloc: Global,
    size: u32,
    bytes: &[u8],
    by_device: bool,
    tells_empty: bool,
) -> Result<Vec<String>, AllocError> {
    if !may_be_damaged(by_device, size as usize, bytes)
        && !(tells_empty && may_be_empty(alloc, size as usize, bytes)?)
    {
        return Ok(Vec::new(alloc));
    }
    match image_in(alloc, size, bytes)? {
        Some(own) => notes_of(alloc, &own, by_device, tells_empty),
        None => Ok(Vec::new(alloc)),
    }
}

/// Whether a damaged commit stands after the log of a block.
fn ends_so(by_device: bool, block: &[u8]) -> bool {
    block.len() >= 4 && ends_damaged(by_device, block)
}

/// Whether one does in blocks of `size` bytes.
fn may_be_damaged(by_device: bool, size: usize, bytes: &[u8]) -> bool {
    bytes
        .chunks(size.max(1))
        .any(|block| ends_so(by_device, block))
}

/// The image that bytes begin with, of all complete blocks that are there. Takes memory.
fn image_in(alloc: Global, size: u32, bytes: &[u8]) -> Result<Option<Image>, AllocError> {
    let Some(count) = bytes.len().min(MOST_BYTES).checked_div(size as usize) else {
        return Ok(None);
    };
    let mut own = Vec::from_slice(alloc, bytes)?;
    own.truncate(count.min(MOST_BLOCKS).saturating_mul(size as usize));
    Ok(Image::new(own, size).ok())
}

/// The lines of an image.
fn notes_of(
    alloc: Global,
    own: &Image,
    by_device: bool,
    tells_empty: bool,
) -> Result<Vec<String>, AllocError> {
    let survey = surveyed(alloc, own, by_device)?;
    let places = older_places(alloc, by_device, own, &survey)?;
    let mut lines = older_lines(alloc, &survey, &places)?;
    if tells_empty {
        let mut more = empty_lines(alloc, &survey)?;
        lines.append(&mut more)?;
    }
    Ok(lines)
}

/// A line for each of these places, at which an older state of a pair is read. Of them at most a hundred, and how many more there are. Takes
/// memory.
pub fn older_lines(
    alloc: Global,
    survey: &Survey,
    places: &[Place],
) -> Result<Vec<String>, AllocError> {
    let mut lines = Lines::new(alloc);
    for place in places {
        if lines.takes_one() {
            lines.add(Some(older_line(alloc, survey, *place)?))?;
        }
    }
    lines.ended(alloc, "pairs are read in an older state")
}

/// What is told of a pair of which an older state is read; its path only if one leads there.
fn older_line(alloc: Global, survey: &Survey, place: Place) -> Result<String, AllocError> {
    let blocks = blocks_at(survey, place);
    if place.area > 0 {
        return format!(in alloc; "{blocks}: {OLDER}");
    }
    let path = PlacedPath::of_pair(alloc, survey, place)?;
    format!(in alloc; "{path}: {blocks}: {OLDER}")
}

/// A line for each part without an entry in which a directory goes on.
fn empty_lines(alloc: Global, survey: &Survey) -> Result<Vec<String>, AllocError> {
    let places = empty_places(alloc, survey)?;
    let mut lines = Lines::new(alloc);
    for place in &places {
        if lines.takes_one() {
            let blocks = blocks_at(survey, *place);
            let path = PlacedPath::of_pair(alloc, survey, *place)?;
            lines.add(Some(format!(in alloc; "{path}: {blocks} have no entry; {EMPTY}")?))?;
        }
    }
    lines.ended(alloc, "parts have no entry")
}
