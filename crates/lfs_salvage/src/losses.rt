//! Whether anything is lost of what is named in an image.

ghost use Rattle.std.specs.Prelude.{◌≡◌, slice_get, slice_index_or};
ghost use Rattle.std.specs.List.{list_any};
ghost use Rattle.lfs_salvage.specs.Lost.{has_start};
ghost use Rattle.lfs_salvage.specs.Losses.{are_same, found_at_call, is_file_lost, is_lost, is_lost_for, is_part_of, is_saved_at, losses_from, call_pair};

use crate::block_use::BlockUse;
use crate::lost::has_start;
use crate::reading::use_of;
use crate::saved::Saved;
use crate::unsaved::{Unsaved, Why};
use lfs_block::MountFault;
use lfs_survey::{Area, Call, Found};

/// Whether two pairs have the same blocks.
fn are_same(pair: (u32, u32), other: (u32, u32)) -> bool
    ensures { result ≡ are_same pair other }
{
    pair.0 == other.0 && pair.1 == other.1 || pair.0 == other.1 && pair.1 == other.0
}

/// Whether a part is found at a call of an area, at the pair with these blocks.
fn is_part_of(areas: &[Area], area: usize, call: usize, pair: (u32, u32)) -> bool
    ensures { result ≡ is_part_of (found_at_call (slice_get areas.now area) call) pair }
{
    let Some(area) = areas.get(area) else {
        return false;
    };
    match area.found.get(call) {
        Some(Found::Part(part)) => are_same(part.pair, pair),
        _ => false,
    }
}

/// Whether a block is in use for the part that is found at a pair.
fn is_saved_at(areas: &[Area], as_use: BlockUse, pair: (u32, u32)) -> bool
    ensures { result ≡ is_saved_at areas.now as_use pair }
{
    match as_use {
        BlockUse::Part { area, call } => is_part_of(areas, area, call, pair),
        BlockUse::Free => false,
        BlockUse::Chain => false,
        BlockUse::Head { .. } => false,
    }
}

/// Whether a pair is lost that isn't read for this fault, where its part may be saved under another name.
fn is_lost_for(fault: MountFault, saved: bool) -> bool
    ensures { result ≡ is_lost_for fault saved }
{
    match fault {
        MountFault::BlockTwice => !saved,
        _ => true,
    }
}

/// Whether what is found at a pair is a loss: it isn't read, and no part of it is saved under another name.
pub fn is_lost(areas: &[Area], uses: &[BlockUse], pair: (u32, u32), found: &Found) -> bool
    ensures { result ≡ is_lost areas.now uses.now pair found.now }
{
    match found {
        Found::Part(_) => false,
        Found::Refused(fault) => {
            let saved = is_saved_at(areas, use_of(uses, pair.0), pair);
            is_lost_for(*fault, saved)
        }
    }
}

/// The pair of the call of this number, or that of the root where there is no such call.
fn pair_at(calls: &[Call], call: usize) -> (u32, u32)
    ensures { result ≡ call_pair calls.now call }
{
    match calls.get(call) {
        Some(call) => call.pair,
        None => (0, 0),
    }
}

/// Whether one of the pairs of an area is lost.
fn has_lost_pair(areas: &[Area], uses: &[BlockUse], calls: &[Call], found: &[Found]) -> bool
    ensures { result ≡ losses_from areas.now uses.now calls.now 0 found.now }
{
    'each: for (call, here) in found.iter().enumerate() {
        if is_lost(areas, uses, pair_at(calls, call), here) {
            return true;
        }
    }
    false
}

/// Whether an entry isn't saved under any name.
pub(crate) fn is_file_lost(why: Why) -> bool
    ensures { result ≡ is_file_lost why }
{
    match why {
        Why::Fault(_) => true,
        Why::Elsewhere(_) => false,
        Why::Name => true,
    }
}

/// Whether a part is found where one of these areas begins.
fn has_parts(areas: &[Area]) -> bool
    ensures { result ≡ list_any (λ a. has_start a.found.items) areas.now }
{
    areas.iter().any(|area| has_start(&area.found))
}

/// Whether a pair of one of these areas is lost.
fn has_lost_pairs(areas: &[Area], uses: &[BlockUse]) -> bool
    ensures { result ≡ list_any (λ a. losses_from areas.now uses.now a.calls.items 0 a.found.items) areas.now }
{
    areas.iter().any(|area| has_lost_pair(areas, uses, &area.calls, &area.found))
}

/// Whether one of the entries that aren't saved is lost.
fn has_lost_files(unsaved: &[Unsaved]) -> bool
    ensures { result ≡ list_any (λ u. is_file_lost u.why) unsaved.now }
{
    unsaved.iter().any(|unsaved| is_file_lost(unsaved.why))
}

impl Saved {
    ghost use Rattle.std.specs.Prelude.{◌≡◌};
    ghost use Rattle.lfs_salvage.specs.Losses.{has_loss};

    /// Whether something is lost: no part is found anywhere, or a pair, a file or a directory that is named isn't saved.
    pub fn has_loss(&self) -> bool
        ensures { result ≡ has_loss self.now }
    {
        !has_parts(&self.areas)
            || has_lost_pairs(&self.areas, &self.salvage.uses)
            || has_lost_files(&self.salvage.unsaved)
    }
}
