//! The first entry of a survey whose chain has a block that something else uses.

ghost use Rattle.std.specs.Prelude.{◌≡◌, IfErr, IfOk, OnOk};
ghost use Rattle.lfs_fs.specs.Used.{AddsBlocks};
ghost use Rattle.lfs_meta.specs.BodyHeld.{body_held};
ghost use Rattle.lfs_survey.specs.AllPlaces.{entry_places_of};
ghost use Rattle.lfs_survey.specs.Shared.{IsFirstShared, body_chain, chain_at};

use crate::all_places::{entry_at, entry_places_of};
use crate::entry_place::EntryPlace;
use crate::survey::Survey;
use lfs_block::{Blocks, MountFault};
use lfs_file::chain;
use lfs_fs::mark_all;
use lfs_meta::Body;
use std::alloc::{AllocError, Global};

/// The blocks of a file's chain; none where it has no chain.
fn body_chain<B: Blocks>(alloc: Global, blocks: &B, body: &Body) -> Result<Vec<u32>, AllocError>
    ensures { IfOk result (λ chain. chain.items ≡ body_chain (B.disk blocks.now) (body_held body.now)) }
{
    let Body::Chain { head, size } = *body else {
        return Ok(Vec::new(alloc));
    };
    match chain(alloc, blocks, head, size) {
        Ok(chain) => Ok(chain),
        Err(fault) => match fault {
            MountFault::Memory => Err(AllocError),
            _ => Ok(Vec::new(alloc)),
        },
    }
}

/// The blocks of the chain of the entry at a place; none where there is no entry, or it has no chain. Takes memory.
pub fn chain_at<B: Blocks>(
    alloc: Global,
    blocks: &B,
    survey: &Survey,
    place: EntryPlace,
) -> Result<Vec<u32>, AllocError>
    ensures { IfOk result (λ chain. chain.items ≡ chain_at (B.disk blocks.now) survey.now.areas.items place) }
{
    match entry_at(survey, place) {
        Some(entry) => body_chain(alloc, blocks, &entry.body),
        None => Ok(Vec::new(alloc)),
    }
}

/// The first of these places at which an entry's chain has a block that the table marks, or that a chain before it has.
fn first_shared_in<B: Blocks>(
    alloc: Global,
    blocks: &B,
    table: &mut [bool],
    survey: &Survey,
    places: &[EntryPlace],
) -> Result<Option<EntryPlace>, AllocError>
    ensures { IfOk result (IsFirstShared (B.disk blocks.now) table.old survey.now.areas.items places.now) }
{
    'each: for place in places {
        let chain = chain_at(alloc, blocks, survey, *place)?;
        match mark_all(table, &chain) {
            Ok(()) => {}
            Err(_) => return Ok(Some(*place)),
        }
    }
    Ok(None)
}

/// The place of the first entry of a survey whose chain has a block that was looked at, or that the chain of an entry before it has; `None`
/// where no block has two uses so. Takes memory.
pub fn first_shared<B: Blocks>(
    alloc: Global,
    blocks: &B,
    survey: &Survey,
) -> Result<Option<EntryPlace>, AllocError>
    ensures { IfOk result (IsFirstShared (B.disk blocks.now) survey.now.looked.items survey.now.areas.items (entry_places_of survey.now.areas.items)) }
{
    let mut table = Vec::from_slice(alloc, &survey.looked)?;
    let places = entry_places_of(alloc, survey)?;
    first_shared_in(alloc, blocks, &mut table, survey, &places)
}
