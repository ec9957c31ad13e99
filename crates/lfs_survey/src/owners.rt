//! Where in a survey the blocks are.

ghost use Rattle.std.specs.Prelude.{◌≡◌, ◌<◌, ℕ, None, length, slice_index_or};
ghost use Rattle.lfs_survey.specs.Owned.{AreNoted, is_looked, is_looked_at, is_turned, noted, then_owner};

use crate::all_places::{call_at, found_at, places_of};
use crate::found::Found;
use crate::place::Place;
use crate::survey::Survey;
use lfs_block::MountFault;
use std::alloc::{AllocError, Global};

/// The place at which each block was looked at.
#[derive(Drop)]
pub struct Owners {
    /// How many blocks there are.
    pub count: u32,
    /// One place a block.
    places: Vec<Option<Place>>,
}

impl Owners {
    ghost use Rattle.std.specs.Prelude.{◌≡◌, IfOk};
    ghost use Rattle.lfs_survey.specs.Owned.{AreOwners, owner_in};

    /// Those of a survey of an image of so many blocks. Takes memory.
    pub fn of(alloc: Global, survey: &Survey, count: u32) -> Result<Owners, AllocError>
        ensures { IfOk result (AreOwners survey.now.areas.items count) }
    {
        let mut places = vec![in alloc; None; count as usize]?;
        let parts = places_of(alloc, survey)?;
        own_all(&mut places, survey, &parts);
        Ok(Owners { count, places })
    }

    /// That of a block, if it was looked at.
    pub fn at(&self, block: u32) -> Option<Place>
        ensures { result ≡ owner_in self.now block }
    {
        match self.places.get(block as usize) {
            Some(place) => *place,
            None => None,
        }
    }
}

/// Notes these places, one after another.
fn own_all(places: &mut [Option<Place>], survey: &Survey, parts: &[Place])
    requires { (b : ℕ) → slice_index_or places.old b None ≡ None }
    ensures { AreNoted survey.now.areas.items parts.now places.new }
{
    'each: for place in parts {
        own_pair(places, survey, *place);
    }
}

/// Whether a pair is looked at: it isn't turned away.
fn is_looked(found: &Found) -> bool
    ensures { result ≡ is_looked found.now }
{
    match found {
        Found::Part(_) => true,
        Found::Refused(fault) => !is_turned(*fault),
    }
}

/// Whether a pair is turned away for this.
fn is_turned(fault: MountFault) -> bool
    ensures { result ≡ is_turned fault }
{
    match fault {
        MountFault::BlockRange | MountFault::BlockTwice => true,
        _ => false,
    }
}

/// Notes a place, if a pair was looked at there.
fn own_pair(places: &mut [Option<Place>], survey: &Survey, place: Place)
    ensures { (b : ℕ) → b < length places.old → slice_index_or places.new b None
        ≡ then_owner (slice_index_or places.old b None) (is_looked_at survey.now.areas.items b place) place }
{
    let Some(found) = found_at(survey, place) else {
        return;
    };
    let Some(call) = call_at(survey, place) else {
        return;
    };
    if is_looked(found) {
        own(places, call.pair.0, place);
        own(places, call.pair.1, place);
    }
}

/// Notes the place of a block, if none is noted yet.
fn own(places: &mut [Option<Place>], block: u32, place: Place)
    ensures { places.new ≡ noted places.old block place }
{
    let index = block as usize;
    if index < places.len() {
        places[index] = Some(places[index].unwrap_or(place));
    }
}
