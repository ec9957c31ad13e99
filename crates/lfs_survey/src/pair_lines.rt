//! What is told of a pair at which an image has a fault.

ghost use Rattle.std.specs.Prelude.{◌≡◌, true, is_some, IfOk};
ghost use Rattle.lfs_survey.specs.Told.{is_named_at};

use crate::all_places::{call_at, found_at};
use crate::blocks_text::BlocksText;
use crate::call_faults::first_tail_past;
use crate::entry_place::EntryPlace;
use crate::found::Found;
use crate::lost::lost_place;
use crate::place::Place;
use crate::placed_text::{PairText, PlacedPath, blocks_at};
use crate::placing::first_place;
use crate::survey::Survey;
use crate::unnamed_place::first_unnamed;
use crate::way::Way;
use lfs_block::MountFault;
use lfs_meta::Tail;
use std::alloc::{AllocError, Global};

/// What is said of a pair that isn't read for a fault, where that is of what its blocks hold.
fn words_of(fault: MountFault) -> Option<&'static str> {
    match fault {
        MountFault::NoValidCommit => Some("neither holds a whole commit"),
        MountFault::UnknownTag => Some("a tag of an unknown type"),
        MountFault::BadTag => Some("a tag that doesn't fit"),
        MountFault::IncompleteEntry => Some("an entry that isn't whole"),
        MountFault::BadName => Some("a name that none may have"),
        _ => None,
    }
}

/// The first pair that isn't read for a fault, where that is of what its blocks hold.
pub(crate) fn unread_line(
    alloc: Global,
    survey: &Survey,
    fault: MountFault,
) -> Result<Option<String>, AllocError> {
    match first_place(survey, fault) {
        Some(place) => unread_line_at(alloc, survey, fault, place),
        None => Ok(None),
    }
}

/// The pair at a place, which isn't read for a fault, where that is of what its blocks hold.
pub fn unread_line_at(
    alloc: Global,
    survey: &Survey,
    fault: MountFault,
    place: Place,
) -> Result<Option<String>, AllocError> {
    let Some(words) = words_of(fault) else {
        return Ok(None);
    };
    let pair = PairText::of(alloc, survey, place)?;
    Ok(Some(format!(in alloc; "{pair}: {words}")?))
}

/// The first area to which no path leads.
pub(crate) fn lost_line(alloc: Global, survey: &Survey) -> Result<Option<String>, AllocError> {
    let Some(place) = lost_place(survey) else {
        return Ok(None);
    };
    let pair = PairText::of(alloc, survey, place)?;
    Ok(Some(format!(in alloc; "{pair}: no path leads there")?))
}

/// The first pair that an entry leads to and at which no directory of the thread begins.
pub(crate) fn unnamed_line(alloc: Global, survey: &Survey) -> Result<Option<String>, AllocError> {
    let Some(place) = first_unnamed(alloc, survey)? else {
        return Ok(None);
    };
    let path = PlacedPath::of_pair(alloc, survey, place)?;
    let blocks = blocks_at(survey, place);
    Ok(Some(format!(in alloc; "{path}: {blocks} begin no directory of the thread")?))
}

/// The first pair that is named and lies past an image of so many blocks: of an entry, or with which a directory or the thread goes on.
pub(crate) fn range_line(
    alloc: Global,
    survey: &Survey,
    count: u32,
) -> Result<Option<String>, AllocError> {
    if let Some(place) = first_place(survey, MountFault::BlockRange) {
        return past_line(alloc, survey, place, count);
    }
    let Some(place) = first_tail_past(alloc, survey, count)? else {
        return Ok(None);
    };
    match found_at(survey, place) {
        Some(Found::Part(part)) => match part.tail {
            Tail::Soft(first, second) => tail_line(alloc, survey, place, (first, second), count),
            _ => Ok(None),
        },
        _ => Ok(None),
    }
}

/// The pair at a place, which lies past an image of so many blocks, by the way that it is come to; `None` if nothing names it. Takes
/// memory.
pub fn past_line(
    alloc: Global,
    survey: &Survey,
    place: Place,
    count: u32,
) -> Result<Option<String>, AllocError>
    ensures { IfOk result (λ line. is_some line ≡ is_named_at survey.now.areas.items place) }
{
    let Some(call) = call_at(survey, place) else {
        return Ok(None);
    };
    let area = place.area;
    match call.way {
        Way::Start => Ok(None),
        Way::Next { from } => {
            tail_line(alloc, survey, Place { area, call: from }, call.pair, count)
        }
        Way::Entry { from, index } => {
            let entry = EntryPlace {
                at: Place { area, call: from },
                entry: index,
            };
            entry_line(alloc, survey, entry, call.pair, count)
        }
    }
}

/// A pair past an image that an entry names.
fn entry_line(
    alloc: Global,
    survey: &Survey,
    place: EntryPlace,
    pair: (u32, u32),
    count: u32,
) -> Result<Option<String>, AllocError>
    ensures { IfOk result (λ line. is_some line ≡ true) }
{
    let path = PlacedPath::of_entry(alloc, survey, place)?;
    let blocks = BlocksText { pair };
    Ok(Some(format!(in alloc; "{path}: {blocks}, of {count}")?))
}

/// A pair of which a block is in use already, and in which what a pair holds goes on.
pub(crate) fn again_line(
    alloc: Global,
    survey: &Survey,
    place: Place,
    pair: (u32, u32),
) -> Result<Option<String>, AllocError> {
    let from = PairText::of(alloc, survey, place)?;
    let blocks = BlocksText { pair };
    Ok(Some(format!(in alloc; "{from}: go on in {blocks}, which are in use already")?))
}

/// A pair past an image with which what a pair holds goes on.
fn tail_line(
    alloc: Global,
    survey: &Survey,
    place: Place,
    pair: (u32, u32),
    count: u32,
) -> Result<Option<String>, AllocError>
    ensures { IfOk result (λ line. is_some line ≡ true) }
{
    let from = PairText::of(alloc, survey, place)?;
    let blocks = BlocksText { pair };
    Ok(Some(format!(in alloc; "{from}: go on in {blocks}, of {count}")?))
}
