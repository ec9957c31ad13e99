//! The first pair of a survey that an entry leads to and at which no directory of the thread begins.

ghost use Rattle.std.specs.Prelude.{◌≡◌, List, MatchBool, IfOk, OnOk};
ghost use Rattle.lfs_meta.specs.Body.{Pair};
ghost use Rattle.lfs_survey.specs.AllPlaces.{IsFirstOf, places_of};
ghost use Rattle.lfs_survey.specs.PairKeys.{AddsKeys, BeginsNothing, HasKeys, is_of_entry, is_unnamed, pair_key};
ghost use Rattle.lfs_survey.specs.Survey.{tails_behind};

use crate::all_places::{call_at, places_of};
use crate::area::Area;
use crate::call::Call;
use crate::place::Place;
use crate::survey::Survey;
use crate::surveying_all::tails_of;
use crate::way::Way;
use lfs_fs::ROOT;
use std::alloc::{AllocError, Global};
use std::collections::BTreeSet;

/// A pair as one number, which is the same for both orders of its blocks.
fn pair_key(pair: (u32, u32)) -> u64
    ensures { result ≡ pair_key pair }
{
    let (low, high) = if pair.0 <= pair.1 {
        pair
    } else {
        (pair.1, pair.0)
    };
    u64::from(low) * 0x1_0000_0000 + u64::from(high)
}

/// Adds the numbers of pairs.
fn add_keys(keys: &mut BTreeSet<u64>, pairs: &[(u32, u32)]) -> Result<(), AllocError>
    ensures { OnOk result (AddsKeys keys.old keys.new pairs.now) }
{
    'each: for pair in pairs {
        keys.insert(pair_key(*pair))?;
    }
    Ok(())
}

/// The numbers of the pairs to which the thread goes on behind areas.
fn tail_keys(alloc: Global, areas: &[Area]) -> Result<BTreeSet<u64>, AllocError>
    ensures { IfOk result (λ keys. HasKeys keys (tails_behind areas.now)) }
{
    let mut keys = BTreeSet::new(alloc);
    'each: for area in areas {
        let tails = tails_of(alloc, area)?;
        add_keys(&mut keys, &tails)?;
    }
    Ok(keys)
}

/// Whether a pair is come to by an entry, and is neither the root's nor one of those with these numbers.
fn is_unnamed(keys: &BTreeSet<u64>, call: Call) -> bool
    ensures { (ps : List Pair) → HasKeys keys.now ps → result ≡ is_unnamed ps call }
{
    let key = pair_key(call.pair);
    is_of_entry(call.way) && key != pair_key(ROOT) && !keys.contains(&key)
}

/// Whether a pair is come to by an entry.
fn is_of_entry(way: Way) -> bool
    ensures { result ≡ is_of_entry way }
{
    match way {
        Way::Entry { .. } => true,
        Way::Start => false,
        Way::Next { .. } => false,
    }
}

/// Whether the pair at a place is so; the numbers are those of the pairs to which the thread goes on.
fn begins_nothing(survey: &Survey, keys: &BTreeSet<u64>, place: Place) -> bool
    requires { HasKeys keys.now (tails_behind survey.now.areas.items) }
    ensures { MatchBool result (BeginsNothing survey.now.areas.items place) (BeginsNothing survey.now.areas.items place → ⊥) }
{
    match call_at(survey, place) {
        Some(call) => is_unnamed(keys, call),
        None => false,
    }
}

/// The first of these places at which the pair is so.
fn first_unnamed_in(survey: &Survey, keys: &BTreeSet<u64>, places: &[Place]) -> Option<Place>
    requires { HasKeys keys.now (tails_behind survey.now.areas.items) }
    ensures { IsFirstOf (BeginsNothing survey.now.areas.items) places.now result }
{
    'each: for place in places {
        if begins_nothing(survey, keys, *place) {
            return Some(*place);
        }
    }
    None
}

/// The place of the first pair of a survey that an entry leads to and at which no directory of the thread begins: it is neither the root's
/// nor one at which the thread goes on to another directory; `None` where there is none. Takes memory.
pub fn first_unnamed(alloc: Global, survey: &Survey) -> Result<Option<Place>, AllocError>
    ensures { IfOk result (IsFirstOf (BeginsNothing survey.now.areas.items) (places_of survey.now.areas.items)) }
{
    let keys = tail_keys(alloc, &survey.areas)?;
    let places = places_of(alloc, survey)?;
    Ok(first_unnamed_in(survey, &keys, &places))
}
