//! The places of a survey that are told of an image that is read.

ghost use Rattle.std.specs.Prelude.{◌≡◌, IfOk};
ghost use Rattle.std.specs.List.{list_any};
ghost use Rattle.lfs_survey.specs.Damaged.{empty_places, goes_on, has_older, is_empty_at, is_empty_part, is_older, is_older_at, older_places};

use crate::all_places::{call_at, found_at, places_of};
use crate::area::Area;
use crate::found::Found;
use crate::place::Place;
use crate::survey::Survey;
use crate::way::Way;
use lfs_block::Image;
use lfs_damage::is_damaged_pair;
use std::alloc::{AllocError, Global};

/// Whether what is found is an older state of its pair.
fn is_older(by_device: bool, own: &Image, found: &Found) -> bool
    ensures { result ≡ is_older by_device own.now.disk found.now }
{
    match found {
        Found::Part(part) => is_damaged_pair(by_device, own, part.pair),
        Found::Refused(_) => false,
    }
}

/// Whether one of the parts of an area is.
fn has_older_in(by_device: bool, own: &Image, area: &Area) -> bool
    ensures { result ≡ list_any (is_older by_device own.now.disk) area.now.found.items }
{
    area.found
        .iter()
        .any(|found| is_older(by_device, own, found))
}

/// Whether an older state of a pair is found in areas, since a later commit is damaged in `own`, the image's own bytes.
pub fn has_older(by_device: bool, own: &Image, areas: &[Area]) -> bool
    ensures { result ≡ has_older by_device own.now.disk areas.now }
{
    areas.iter().any(|area| has_older_in(by_device, own, area))
}

/// Whether the part at a place is an older state of its pair.
fn is_older_at(by_device: bool, own: &Image, survey: &Survey, place: Place) -> bool
    ensures { result ≡ is_older_at by_device own.now.disk survey.now.areas.items place }
{
    match found_at(survey, place) {
        Some(found) => is_older(by_device, own, found),
        None => false,
    }
}

/// The places of a survey at which an older state of a pair is found, since a later commit is damaged in `own`, the image's own bytes, which
/// are read in one of the two manners; in order. Takes memory.
pub fn older_places(
    alloc: Global,
    by_device: bool,
    own: &Image,
    survey: &Survey,
) -> Result<Vec<Place>, AllocError>
    ensures { IfOk result (λ places. places.items ≡ older_places by_device own.now.disk survey.now.areas.items) }
{
    let mut places = places_of(alloc, survey)?;
    places.retain(
        |place| -> bool
            ensures { result ≡ is_older_at by_device own.entry.now.disk survey.entry.now.areas.items place.now }
        { is_older_at(by_device, own, survey, *place) },
    );
    Ok(places)
}

/// Whether a directory goes on at a pair.
fn goes_on(way: Way) -> bool
    ensures { result ≡ goes_on way }
{
    match way {
        Way::Start => false,
        Way::Entry { .. } => false,
        Way::Next { .. } => true,
    }
}

/// Whether what is found is a part without an entry.
fn is_empty_part(found: &Found) -> bool
    ensures { result ≡ is_empty_part found.now }
{
    match found {
        Found::Part(part) => part.entries.is_empty(),
        Found::Refused(_) => false,
    }
}

/// Whether a directory goes on at a place in a part without an entry.
fn is_empty_at(survey: &Survey, place: Place) -> bool
    ensures { result ≡ is_empty_at survey.now.areas.items place }
{
    let Some(call) = call_at(survey, place) else {
        return false;
    };
    let Some(found) = found_at(survey, place) else {
        return false;
    };
    goes_on(call.way) && is_empty_part(found)
}

/// The places of a survey at which a directory goes on in a part without an entry, in order: littlefs lists such a directory without end.
/// Takes memory.
pub fn empty_places(alloc: Global, survey: &Survey) -> Result<Vec<Place>, AllocError>
    ensures { IfOk result (λ places. places.items ≡ empty_places survey.now.areas.items) }
{
    let mut places = places_of(alloc, survey)?;
    places.retain(
        |place| -> bool
            ensures { result ≡ is_empty_at survey.entry.now.areas.items place.now }
        { is_empty_at(survey, *place) },
    );
    Ok(places)
}
