//! The first entry of a survey that no image has that mounts, whatever stands beside it.

ghost use Rattle.std.specs.Prelude.{◌≡◌, ◌<◌, ◌≤◌, MatchBool, All, IfOk, length};
ghost use Rattle.std.specs.List.{Any};
ghost use Rattle.lfs_fs.specs.FrontCause.{IsOversized, stored_name_length, stored_size};
ghost use Rattle.lfs_meta.specs.BodyHeld.{body_held};
ghost use Rattle.lfs_survey.specs.AllPlaces.{IsFirstOf, entry_places_of};
ghost use Rattle.lfs_survey.specs.Faults.{IsElsewhere, IsOver, first_entry};

use crate::all_places::{entry_at, entry_places_of};
use crate::entry_place::EntryPlace;
use crate::place::Place;
use crate::survey::Survey;
use lfs_fs::Limits;
use lfs_meta::{Attribute, Body, Entry, Kind};
use std::alloc::{AllocError, Global};

/// The place of the first entry of the root.
pub(crate) fn first_entry() -> EntryPlace
    ensures { result ≡ first_entry }
{
    EntryPlace {
        at: Place { area: 0, call: 0 },
        entry: 0,
    }
}

/// Whether a superblock stands at a place, which isn't the first one.
fn is_elsewhere(survey: &Survey, place: EntryPlace) -> bool
    ensures { MatchBool result (IsElsewhere survey.now.areas.items place) (IsElsewhere survey.now.areas.items place → ⊥) }
{
    match entry_at(survey, place) {
        Some(entry) => entry.kind == Kind::Super && place != first_entry(),
        None => false,
    }
}

/// The first of these places at which a superblock stands so.
fn first_elsewhere_in(survey: &Survey, places: &[EntryPlace]) -> Option<EntryPlace>
    ensures { IsFirstOf (IsElsewhere survey.now.areas.items) places.now result }
{
    'each: for place in places {
        if is_elsewhere(survey, *place) {
            return Some(*place);
        }
    }
    None
}

/// The place of the first superblock of a survey behind the one with which it may begin; `None` where there is none. Takes memory.
pub fn first_superblock_elsewhere(
    alloc: Global,
    survey: &Survey,
) -> Result<Option<EntryPlace>, AllocError>
    ensures { IfOk result (IsFirstOf (IsElsewhere survey.now.areas.items) (entry_places_of survey.now.areas.items)) }
{
    let places = entry_places_of(alloc, survey)?;
    Ok(first_elsewhere_in(survey, &places))
}

/// A file's size; others have none.
fn stored_size(kind: Kind, body: &Body) -> usize
    ensures { result ≡ stored_size kind (body_held body.now) }
{
    match (kind, body) {
        (Kind::File, Body::Inline(bytes)) => bytes.len(),
        (Kind::File, Body::Chain { size, .. }) => *size as usize,
        _ => 0,
    }
}

/// The length of a file's or a directory's name.
fn stored_name_length(kind: Kind, name: &[u8]) -> usize
    ensures { result ≡ stored_name_length kind name.now }
{
    match kind {
        Kind::File | Kind::Dir => name.len(),
        Kind::Super => 0,
    }
}

/// Whether an attribute is longer than the limit.
fn some_is_over(attributes: &[Attribute], limit: u32) -> bool
    ensures { MatchBool result (Any (λ a. limit < length a.1) attributes.now) (All (λ a. length a.1 ≤ limit) attributes.now) }
{
    'each: for attribute in attributes {
        if attribute.value.len() > limit as usize {
            return true;
        }
    }
    false
}

/// Whether an entry is over these limits.
fn is_oversized(limits: Limits, entry: &Entry) -> bool
    ensures { MatchBool result (IsOversized limits entry.now) (IsOversized limits entry.now → ⊥) }
{
    stored_name_length(entry.kind, &entry.name) > limits.name as usize
        || stored_size(entry.kind, &entry.body) > limits.file as usize
        || some_is_over(&entry.attributes, limits.attribute)
}

/// Whether the entry at a place is over these limits.
fn is_over(limits: Limits, survey: &Survey, place: EntryPlace) -> bool
    ensures { MatchBool result (IsOver limits survey.now.areas.items place) (IsOver limits survey.now.areas.items place → ⊥) }
{
    match entry_at(survey, place) {
        Some(entry) => is_oversized(limits, entry),
        None => false,
    }
}

/// The first of these places at which an entry is over these limits.
fn first_over_in(limits: Limits, survey: &Survey, places: &[EntryPlace]) -> Option<EntryPlace>
    ensures { IsFirstOf (IsOver limits survey.now.areas.items) places.now result }
{
    'each: for place in places {
        if is_over(limits, survey, *place) {
            return Some(*place);
        }
    }
    None
}

/// The place of the first entry of a survey whose name, file or attribute is over these limits; `None` where there is none. Takes memory.
pub fn first_oversized(
    alloc: Global,
    survey: &Survey,
    limits: Limits,
) -> Result<Option<EntryPlace>, AllocError>
    ensures { IfOk result (IsFirstOf (IsOver limits survey.now.areas.items) (entry_places_of survey.now.areas.items)) }
{
    let places = entry_places_of(alloc, survey)?;
    Ok(first_over_in(limits, survey, &places))
}
