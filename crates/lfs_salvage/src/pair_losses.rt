//! What is told of pairs whose directories aren't saved where they are named.

use crate::block_use::BlockUse;
use crate::losses::is_lost;
use lfs_block::MountFault;
use lfs_survey::{
    Found, Lines, Owners, Place, PlacedPath, Survey, Way, blocks_at, call_at, found_at, pair_line,
    past_line, unread_line_at,
};
use std::alloc::{AllocError, Global};

/// Adds a line for each pair of an area that is lost.
pub(crate) fn add_lost_pairs(
    alloc: Global,
    survey: &Survey,
    uses: &[BlockUse],
    owners: &Owners,
    area: usize,
    calls: usize,
    lines: &mut Lines,
) -> Result<(), AllocError> {
    for call in 0..calls {
        let place = Place { area, call };
        if let (Some(fault), true) = refused_at(survey, uses, place) {
            if lines.takes_one() {
                lines.add(pair_loss(alloc, survey, owners, place, fault)?)?;
            }
        }
    }
    Ok(())
}

/// Adds a line for each pair of an area whose directory is saved under another path.
pub(crate) fn add_other_pairs(
    alloc: Global,
    survey: &Survey,
    uses: &[BlockUse],
    area: usize,
    calls: usize,
    lines: &mut Lines,
) -> Result<(), AllocError> {
    for call in 0..calls {
        let place = Place { area, call };
        if let (Some(_), false) = refused_at(survey, uses, place) {
            if lines.takes_one() {
                lines.add(other_pair(alloc, survey, uses, place)?)?;
            }
        }
    }
    Ok(())
}

/// Why the pair at a place isn't read, where it isn't, and whether it is lost then.
fn refused_at(survey: &Survey, uses: &[BlockUse], place: Place) -> (Option<MountFault>, bool) {
    match found_at(survey, place) {
        Some(found) => match found {
            Found::Part(_) => (None, false),
            Found::Refused(fault) => {
                let pair = blocks_at(survey, place).pair;
                (Some(*fault), is_lost(&survey.areas, uses, pair, found))
            }
        },
        None => (None, false),
    }
}

/// What is told of a pair that isn't read for a fault.
fn pair_loss(
    alloc: Global,
    survey: &Survey,
    owners: &Owners,
    place: Place,
    fault: MountFault,
) -> Result<Option<String>, AllocError> {
    match fault {
        MountFault::BlockRange => past_line(alloc, survey, place, owners.count),
        MountFault::BlockTwice => pair_line(alloc, survey, owners, place),
        fault => unread_line_at(alloc, survey, fault, place),
    }
}

/// What is told of a pair that is saved under another path.
fn other_pair(
    alloc: Global,
    survey: &Survey,
    uses: &[BlockUse],
    place: Place,
) -> Result<Option<String>, AllocError> {
    let (first, _) = blocks_at(survey, place).pair;
    let Some(BlockUse::Part { area, call }) = uses.get(first as usize).copied() else {
        return Ok(None);
    };
    let path = PlacedPath::of_pair(alloc, survey, place)?;
    let other = PlacedPath::of_pair(alloc, survey, Place { area, call })?;
    if !goes_on(survey, place) {
        return Ok(Some(format!(in alloc; "{path}: is saved as {other}")?));
    }
    let blocks = blocks_at(survey, place);
    Ok(Some(format!(in alloc; "{path}: goes on in {blocks}, which are saved as {other}")?))
}

/// Whether the directory of another pair goes on in the one at a place.
fn goes_on(survey: &Survey, place: Place) -> bool {
    match call_at(survey, place) {
        Some(call) => matches!(call.way, Way::Next { .. }),
        None => false,
    }
}

/// Adds a line for an area to which no path leads, where a part is found at its beginning: below which folder it is saved.
pub(crate) fn add_lost_area(
    alloc: Global,
    survey: &Survey,
    word: &str,
    area: usize,
    lines: &mut Lines,
) -> Result<(), AllocError> {
    let place = Place { area, call: 0 };
    let (Some(call), Some(Found::Part(_))) = (call_at(survey, place), found_at(survey, place))
    else {
        return Ok(());
    };
    if lines.takes_one() {
        let blocks = blocks_at(survey, place);
        let (first, _) = call.pair;
        lines.add(Some(format!(in alloc;
            "{blocks}: no path leads there: saved as {word}/{first}"
        )?))?;
    }
    Ok(())
}
