//! The first part of a survey behind which the thread goes on past the image.

ghost use Rattle.std.specs.Prelude.{◌≡◌, ◌≤◌, ◌⊎◌, MatchBool, IfOk};
ghost use Rattle.lfs_survey.specs.AllPlaces.{IsFirstOf, places_of};
ghost use Rattle.lfs_survey.specs.Faults.{GoesOnPast, TailIsPast};

use crate::all_places::{found_at, places_of};
use crate::found::Found;
use crate::place::Place;
use crate::survey::Survey;
use lfs_meta::Tail;
use std::alloc::{AllocError, Global};

/// Whether a pair has a block past an image of so many blocks.
fn is_past(count: u32, pair: (u32, u32)) -> bool
    ensures { MatchBool result ((count ≤ pair.0) ⊎ (count ≤ pair.1)) ((count ≤ pair.0) ⊎ (count ≤ pair.1) → ⊥) }
{
    pair.0 >= count || pair.1 >= count
}

/// Whether the thread goes on behind what is found, to another directory, past an image of so many blocks.
fn tail_is_past(count: u32, found: &Found) -> bool
    ensures { MatchBool result (TailIsPast count found.now) (TailIsPast count found.now → ⊥) }
{
    let Found::Part(part) = found else {
        return false;
    };
    match part.tail {
        Tail::Soft(first, second) => is_past(count, (first, second)),
        _ => false,
    }
}

/// Whether it does behind what is found at a place.
fn goes_on_past(count: u32, survey: &Survey, place: Place) -> bool
    ensures { MatchBool result (GoesOnPast count survey.now.areas.items place) (GoesOnPast count survey.now.areas.items place → ⊥) }
{
    match found_at(survey, place) {
        Some(found) => tail_is_past(count, found),
        None => false,
    }
}

/// The first of these places behind which it does.
fn first_past_in(count: u32, survey: &Survey, places: &[Place]) -> Option<Place>
    ensures { IsFirstOf (GoesOnPast count survey.now.areas.items) places.now result }
{
    'each: for place in places {
        if goes_on_past(count, survey, *place) {
            return Some(*place);
        }
    }
    None
}

/// The place of the first part of a survey behind which the thread goes on, to another directory, past an image of so many blocks; `None`
/// where there is none. Takes memory.
pub fn first_tail_past(
    alloc: Global,
    survey: &Survey,
    count: u32,
) -> Result<Option<Place>, AllocError>
    ensures { IfOk result (IsFirstOf (GoesOnPast count survey.now.areas.items) (places_of survey.now.areas.items)) }
{
    let places = places_of(alloc, survey)?;
    Ok(first_past_in(count, survey, &places))
}
