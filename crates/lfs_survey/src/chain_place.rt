//! The first entry of a survey whose file has no chain.

ghost use Rattle.std.specs.Prelude.{◌≡◌, ℕ, List, true, MatchBool, None, Some, IfOk, slice_get, slice_set};
ghost use Rattle.lfs_file.specs.SkipList.{chain_of};
ghost use Rattle.lfs_meta.specs.BodyHeld.{body_held};
ghost use Rattle.lfs_survey.specs.AllPlaces.{IsFirstOf, entry_places_of};
ghost use Rattle.lfs_survey.specs.Faults.{EntryHasNoChain, KnowsChains, LacksChain};

use crate::all_places::{entry_at, entry_places_of};
use crate::entry_place::EntryPlace;
use crate::survey::Survey;
use lfs_block::{Blocks, MountFault};
use lfs_file::{chain, files_have_one_chain};
use lfs_meta::Body;
use std::alloc::{AllocError, Global};

/// Whether the file of this head and size is one that a table says to have a chain.
fn is_known(known: &[u32], head: u32, size: u32) -> bool
    ensures { result ≡ true → slice_get known.now head ≡ Some size }
{
    known.get(head as usize) == Some(&size)
}

/// Puts it into the table.
fn know(known: &mut [u32], head: u32, size: u32)
    ensures { known.new ≡ slice_set known.old head size }
{
    let index = head as usize;
    if index < known.len() {
        known[index] = size;
    }
}

/// Whether the disk has no chain of a head and a size.
fn has_none<B: Blocks>(alloc: Global, blocks: &B, head: u32, size: u32) -> Result<bool, AllocError>
    ensures { IfOk result (λ none. MatchBool none (chain_of (B.disk blocks.now) head size ≡ None)
        ((found : List ℕ) × (chain_of (B.disk blocks.now) head size ≡ Some found))) }
{
    match chain(alloc, blocks, head, size) {
        Ok(_) => Ok(false),
        Err(fault) => match fault {
            MountFault::Memory => Err(AllocError),
            _ => Ok(true),
        },
    }
}

/// Whether a file's blocks are no chain. Those that are one are put into the table, so that the same isn't read again.
fn lacks_chain<B: Blocks>(
    alloc: Global,
    blocks: &B,
    known: &mut [u32],
    body: &Body,
) -> Result<bool, AllocError>
    requires { KnowsChains (B.disk blocks.now) known.old }
    ensures lacks { IfOk result (λ lacks. MatchBool lacks (LacksChain (B.disk blocks.now) (body_held body.now))
        (LacksChain (B.disk blocks.now) (body_held body.now) → ⊥)) }
    ensures knows { KnowsChains (B.disk blocks.now) known.new }
{
    let Body::Chain { head, size } = *body else {
        return Ok(false);
    };
    if is_known(known, head, size) {
        return Ok(false);
    }
    if has_none(alloc, blocks, head, size)? {
        return Ok(true);
    }
    know(known, head, size);
    Ok(false)
}

/// Whether the entry at a place is of a file whose blocks are no chain.
fn has_no_chain<B: Blocks>(
    alloc: Global,
    blocks: &B,
    known: &mut [u32],
    survey: &Survey,
    place: EntryPlace,
) -> Result<bool, AllocError>
    requires { KnowsChains (B.disk blocks.now) known.old }
    ensures lacks { IfOk result (λ lacks. MatchBool lacks (EntryHasNoChain (B.disk blocks.now) survey.now.areas.items place)
        (EntryHasNoChain (B.disk blocks.now) survey.now.areas.items place → ⊥)) }
    ensures knows { KnowsChains (B.disk blocks.now) known.new }
{
    match entry_at(survey, place) {
        Some(entry) => lacks_chain(alloc, blocks, known, &entry.body),
        None => Ok(false),
    }
}

/// The first of these places at which an entry is of a file whose blocks are no chain.
fn first_without_chain_in<B: Blocks>(
    alloc: Global,
    blocks: &B,
    known: &mut [u32],
    survey: &Survey,
    places: &[EntryPlace],
) -> Result<Option<EntryPlace>, AllocError>
    requires { KnowsChains (B.disk blocks.now) known.old }
    ensures { IfOk result (IsFirstOf (EntryHasNoChain (B.disk blocks.now) survey.now.areas.items) places.now) }
{
    'each: for place in places {
        if has_no_chain(alloc, blocks, known, survey, *place)? {
            return Ok(Some(*place));
        }
    }
    Ok(None)
}

/// The place of the first entry of a survey whose file has no chain of its head and its size; `None` where there is none. Takes memory.
pub fn first_without_chain<B: Blocks>(
    alloc: Global,
    blocks: &B,
    survey: &Survey,
) -> Result<Option<EntryPlace>, AllocError>
    ensures { IfOk result (IsFirstOf (EntryHasNoChain (B.disk blocks.now) survey.now.areas.items) (entry_places_of survey.now.areas.items)) }
{
    files_have_one_chain();
    let mut known = vec![in alloc; 0; blocks.count() as usize]?;
    let places = entry_places_of(alloc, survey)?;
    first_without_chain_in(alloc, blocks, &mut known, survey, &places)
}
