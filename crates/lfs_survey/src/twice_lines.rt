//! What is told of a block that two things use.

use crate::all_places::{call_at, entry_places_of};
use crate::call::Call;
use crate::circle_line::circle_line;
use crate::entry_place::EntryPlace;
use crate::owners::Owners;
use crate::pair_lines::again_line;
use crate::place::Place;
use crate::placed_text::{PlacedPath, blocks_at};
use crate::placing::first_place;
use crate::shared_place::{chain_at, first_shared};
use crate::survey::Survey;
use crate::way::Way;
use lfs_block::{Blocks, Image, MountFault};
use std::alloc::{AllocError, Global};

/// The first pair of which a block is another's; or else the first that has one block twice; or else the first file of which a block is
/// something else's; or else the first pair behind which the thread goes on where it was before.
pub(crate) fn twice_line(
    alloc: Global,
    image: &Image,
    survey: &Survey,
) -> Result<Option<String>, AllocError> {
    let owners = Owners::of(alloc, survey, image.count())?;
    if let Some(place) = first_place(survey, MountFault::BlockTwice) {
        return pair_line(alloc, survey, &owners, place);
    }
    if let Some(place) = first_double(survey) {
        return double_line(alloc, survey, place);
    }
    match first_shared(alloc, image, survey)? {
        Some(place) => chain_line(alloc, image, survey, &owners, place),
        None => circle_line(alloc, survey, &owners),
    }
}

/// The call of these that has one block twice.
fn double_in(calls: &[Call]) -> Option<usize> {
    for (number, call) in calls.iter().enumerate() {
        if call.pair.0 == call.pair.1 {
            return Some(number);
        }
    }
    None
}

/// The first pair that has one block twice.
fn first_double(survey: &Survey) -> Option<Place> {
    for (area, here) in survey.areas.iter().enumerate() {
        if let Some(call) = double_in(&here.calls) {
            return Some(Place { area, call });
        }
    }
    None
}

/// The pair at a place, which has one block twice.
fn double_line(alloc: Global, survey: &Survey, place: Place) -> Result<Option<String>, AllocError> {
    let path = PlacedPath::of_pair(alloc, survey, place)?;
    let (block, _) = blocks_at(survey, place).pair;
    Ok(Some(format!(in alloc; "block {block}: {path} uses it twice")?))
}

/// The pair at a place, of which a block is another's. Takes memory.
pub fn pair_line(
    alloc: Global,
    survey: &Survey,
    owners: &Owners,
    place: Place,
) -> Result<Option<String>, AllocError> {
    let (first, second) = blocks_at(survey, place).pair;
    if let Some(from) = left_for(survey, place) {
        return again_line(alloc, survey, from, (first, second));
    }
    match (owners.at(first), owners.at(second)) {
        (Some(one), Some(other)) if one == other => same_line(alloc, survey, place, one),
        (Some(owner), _) => half_line(alloc, survey, place, first, owner),
        (None, Some(owner)) => half_line(alloc, survey, place, second, owner),
        (None, None) => Ok(None),
    }
}

/// The place at which a directory goes on in the pair at a place.
fn left_for(survey: &Survey, place: Place) -> Option<Place> {
    match call_at(survey, place)?.way {
        Way::Next { from } => Some(Place {
            area: place.area,
            call: from,
        }),
        _ => None,
    }
}

/// A pair that another directory has.
fn same_line(
    alloc: Global,
    survey: &Survey,
    place: Place,
    owner: Place,
) -> Result<Option<String>, AllocError> {
    let path = PlacedPath::of_pair(alloc, survey, place)?;
    let other = PlacedPath::of_pair(alloc, survey, owner)?;
    let blocks = blocks_at(survey, place);
    Ok(Some(format!(in alloc; "{path}: {blocks} are those of {other}")?))
}

/// A pair of which one block is another directory's.
fn half_line(
    alloc: Global,
    survey: &Survey,
    place: Place,
    block: u32,
    owner: Place,
) -> Result<Option<String>, AllocError> {
    let path = PlacedPath::of_pair(alloc, survey, place)?;
    let other = PlacedPath::of_pair(alloc, survey, owner)?;
    Ok(Some(format!(in alloc; "block {block}: {other} and {path} use it")?))
}

/// The file at a place, of which a block is something else's.
fn chain_line(
    alloc: Global,
    image: &Image,
    survey: &Survey,
    owners: &Owners,
    place: EntryPlace,
) -> Result<Option<String>, AllocError> {
    let places = entry_places_of(alloc, survey)?;
    let Some(block) = shared_block(alloc, image, survey, &places, place)? else {
        return Ok(None);
    };
    let Some(user) = user_of(alloc, image, survey, owners, &places, block)? else {
        return Ok(None);
    };
    let path = PlacedPath::of_entry(alloc, survey, place)?;
    Ok(Some(format!(in alloc; "block {block}: {user} and {path} use it")?))
}

/// Marks blocks in a table.
fn mark(table: &mut [bool], blocks: &[u32]) {
    for block in blocks {
        if let Some(flag) = table.get_mut(*block as usize) {
            *flag = true;
        }
    }
}

/// The first block of the file at a place that was looked at, or that the file of an entry before it has, of these.
fn shared_block(
    alloc: Global,
    image: &Image,
    survey: &Survey,
    places: &[EntryPlace],
    place: EntryPlace,
) -> Result<Option<u32>, AllocError> {
    let mut used = Vec::from_slice(alloc, &survey.looked)?;
    for other in places {
        if *other == place {
            break;
        }
        let blocks = chain_at(alloc, image, survey, *other)?;
        mark(&mut used, &blocks);
    }
    let chain = chain_at(alloc, image, survey, place)?;
    Ok(first_marked(&used, &chain))
}

/// The first of these blocks that a table marks.
fn first_marked(table: &[bool], blocks: &[u32]) -> Option<u32> {
    for block in blocks {
        if table.get(*block as usize) == Some(&true) {
            return Some(*block);
        }
    }
    None
}

/// What uses a block: the directory whose pair has it, or else the first of these entries whose file has it.
fn user_of<'a>(
    alloc: Global,
    image: &Image,
    survey: &'a Survey,
    owners: &Owners,
    places: &[EntryPlace],
    block: u32,
) -> Result<Option<PlacedPath<'a>>, AllocError> {
    if let Some(owner) = owners.at(block) {
        return Ok(Some(PlacedPath::of_pair(alloc, survey, owner)?));
    }
    for place in places {
        let blocks = chain_at(alloc, image, survey, *place)?;
        if blocks.contains(&block) {
            return Ok(Some(PlacedPath::of_entry(alloc, survey, *place)?));
        }
    }
    Ok(None)
}
