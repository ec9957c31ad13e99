//! The first entry of a survey that stands behind one before which it comes.

ghost use Rattle.std.specs.Prelude.{◌≡◌, MatchBool, IfOk};
ghost use Rattle.std.specs.Option.{option_map};
ghost use Rattle.lfs_survey.specs.AllPlaces.{IsFirstOf, entry_places_of};
ghost use Rattle.lfs_survey.specs.Faults.{AreMisordered, IsMisplaced, entry_before, entry_before_part, entry_behind, last_entry};

use crate::all_places::{entry_at, entry_places_of, found_entries};
use crate::entry_place::EntryPlace;
use crate::found::Found;
use crate::place::Place;
use crate::survey::Survey;
use crate::way::Way;
use lfs_fs::precedes;
use lfs_meta::{Entry, Kind};
use std::alloc::{AllocError, Global};

/// The last entry of what is found.
fn last_entry(found: &Found) -> Option<&Entry>
    ensures { option_map (λ e. e.now) result ≡ last_entry found.now }
{
    found_entries(found).last()
}

/// The last entry of the part behind which a directory goes on by this way.
fn entry_behind(found: &[Found], way: Way) -> Option<&Entry>
    ensures { option_map (λ e. e.now) result ≡ entry_behind found.now way }
{
    match way {
        Way::Next { from } => last_entry(found.get(from)?),
        Way::Start => None,
        Way::Entry { .. } => None,
    }
}

/// The entry before the first one of the pair at a place, where its directory goes on there.
fn entry_before_part(survey: &Survey, place: Place) -> Option<&Entry>
    ensures { option_map (λ e. e.now) result ≡ entry_before_part survey.now.areas.items place }
{
    let area = survey.areas.get(place.area)?;
    entry_behind(&area.found, area.calls.get(place.call)?.way)
}

/// The entry before the one at a place, in its directory; `None` where there is none.
pub fn entry_before(survey: &Survey, place: EntryPlace) -> Option<&Entry>
    ensures { option_map (λ e. e.now) result ≡ entry_before survey.now.areas.items place }
{
    if place.entry == 0 {
        return entry_before_part(survey, place.at);
    }
    entry_at(
        survey,
        EntryPlace {
            at: place.at,
            entry: place.entry - 1,
        },
    )
}

/// Whether an entry stands behind one before which its name comes.
fn are_misordered(before: &Entry, behind: &Entry) -> bool
    ensures { MatchBool result (AreMisordered before.now behind.now) (AreMisordered before.now behind.now → ⊥) }
{
    before.kind != Kind::Super
        && behind.kind != Kind::Super
        && !precedes(&before.name, &behind.name)
}

/// Whether the entry at a place stands so.
fn is_misplaced(survey: &Survey, place: EntryPlace) -> bool
    ensures { MatchBool result (IsMisplaced survey.now.areas.items place) (IsMisplaced survey.now.areas.items place → ⊥) }
{
    match (entry_before(survey, place), entry_at(survey, place)) {
        (Some(before), Some(behind)) => are_misordered(before, behind),
        _ => false,
    }
}

/// The first of these places at which an entry stands so.
fn first_misplaced_in(survey: &Survey, places: &[EntryPlace]) -> Option<EntryPlace>
    ensures { IsFirstOf (IsMisplaced survey.now.areas.items) places.now result }
{
    'each: for place in places {
        if is_misplaced(survey, *place) {
            return Some(*place);
        }
    }
    None
}

/// The place of the first entry of a survey that stands in its directory behind one before which its name comes; `None` where there is
/// none. Takes memory.
pub fn first_misplaced(alloc: Global, survey: &Survey) -> Result<Option<EntryPlace>, AllocError>
    ensures { IfOk result (IsFirstOf (IsMisplaced survey.now.areas.items) (entry_places_of survey.now.areas.items)) }
{
    let places = entry_places_of(alloc, survey)?;
    Ok(first_misplaced_in(survey, &places))
}
