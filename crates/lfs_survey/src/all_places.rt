//! All places of a survey, and what stands at each.

ghost use Rattle.std.specs.Prelude.{◌≡◌, ◌++◌, IfOk, OnOk, flat_map, length};
ghost use Rattle.std.specs.Option.{option_map};
ghost use Rattle.lfs_survey.specs.AllPlaces.{area_places, call_at, entry_at_place, entry_places_at, entry_places_of, found_at, found_entries, places_of};

use crate::area::Area;
use crate::call::Call;
use crate::entry_place::EntryPlace;
use crate::found::Found;
use crate::place::Place;
use crate::survey::Survey;
use lfs_meta::Entry;
use std::alloc::{AllocError, Global};

/// The pair that is looked at at a place; `None` where there is none.
pub fn call_at(survey: &Survey, place: Place) -> Option<Call>
    ensures { result ≡ call_at survey.now.areas.items place }
{
    survey.areas.get(place.area)?.calls.get(place.call).copied()
}

/// What is found at a place; `None` where there is none.
pub fn found_at(survey: &Survey, place: Place) -> Option<&Found>
    ensures { option_map (λ f. f.now) result ≡ found_at survey.now.areas.items place }
{
    survey.areas.get(place.area)?.found.get(place.call)
}

/// The entries of what is found.
pub(crate) fn found_entries(found: &Found) -> &[Entry]
    ensures { result.now ≡ found_entries found.now }
{
    match found {
        Found::Part(part) => &part.entries,
        Found::Refused(_) => &[],
    }
}

/// The entry at a place; `None` where there is none.
pub fn entry_at(survey: &Survey, place: EntryPlace) -> Option<&Entry>
    ensures { option_map (λ e. e.now) result ≡ entry_at_place survey.now.areas.items place }
{
    found_entries(found_at(survey, place.at)?).get(place.entry)
}

/// Adds the places of the area of this number.
fn add_area_places(places: &mut Vec<Place>, area: usize, count: usize) -> Result<(), AllocError>
    ensures { OnOk result (places.new.items ≡ places.old.items ++ area_places area count) }
{
    for call in 0..count {
        places.push(Place { area, call })?;
    }
    Ok(())
}

/// All places of a survey, in order.
pub(crate) fn places_of(alloc: Global, survey: &Survey) -> Result<Vec<Place>, AllocError>
    ensures { IfOk result (λ places. places.items ≡ places_of survey.now.areas.items) }
{
    let mut places = Vec::new(alloc);
    'each: for (area, here) in survey.areas.iter().enumerate() {
        add_area_places(&mut places, area, here.found.len())?;
    }
    Ok(places)
}

/// Adds the places of the entries of what is found at a place.
fn add_entry_places(
    places: &mut Vec<EntryPlace>,
    survey: &Survey,
    at: Place,
) -> Result<(), AllocError>
    ensures { OnOk result (places.new.items ≡ places.old.items ++ entry_places_at at (found_at survey.now.areas.items at)) }
{
    let Some(found) = found_at(survey, at) else {
        return Ok(());
    };
    for entry in 0..found_entries(found).len() {
        places.push(EntryPlace { at, entry })?;
    }
    Ok(())
}

/// The places of the entries of what is found at these places.
fn entry_places_in(
    alloc: Global,
    survey: &Survey,
    parts: &[Place],
) -> Result<Vec<EntryPlace>, AllocError>
    ensures { IfOk result (λ places. places.items ≡ flat_map (λ p. entry_places_at p (found_at survey.now.areas.items p)) parts.now) }
{
    let mut places = Vec::new(alloc);
    'each: for at in parts {
        add_entry_places(&mut places, survey, *at)?;
    }
    Ok(places)
}

/// The places of all entries of a survey, in order. Takes memory.
pub fn entry_places_of(alloc: Global, survey: &Survey) -> Result<Vec<EntryPlace>, AllocError>
    ensures { IfOk result (λ places. places.items ≡ entry_places_of survey.now.areas.items) }
{
    let parts = places_of(alloc, survey)?;
    entry_places_in(alloc, survey, &parts)
}
