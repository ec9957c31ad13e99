//! What is told where the thread goes on in blocks that are in use already.

use crate::all_places::found_at;
use crate::found::Found;
use crate::owners::Owners;
use crate::pair_lines::again_line;
use crate::place::Place;
use crate::placed_text::blocks_at;
use crate::survey::Survey;
use lfs_meta::Tail;
use std::alloc::{AllocError, Global};

/// The first pair of the thread behind which it goes on in a block in which it was before.
pub(crate) fn circle_line(
    alloc: Global,
    survey: &Survey,
    owners: &Owners,
) -> Result<Option<String>, AllocError> {
    let mut passed = vec![in alloc; false; owners.count as usize]?;
    let mut at = Place { area: 0, call: 0 };
    for _ in 0..owners.count {
        let Some(next) = next_pair(survey, at) else {
            return Ok(None);
        };
        pass(&mut passed, blocks_at(survey, at).pair);
        if is_passed(&passed, next) {
            return again_line(alloc, survey, at, next);
        }
        let Some(place) = owners.at(next.0) else {
            return Ok(None);
        };
        at = place;
    }
    Ok(None)
}

/// The pair at which the thread goes on behind a part.
fn next_pair(survey: &Survey, place: Place) -> Option<(u32, u32)> {
    match found_at(survey, place)? {
        Found::Part(part) => match part.tail {
            Tail::Soft(first, second) | Tail::Hard(first, second) => Some((first, second)),
            Tail::End => None,
        },
        Found::Refused(_) => None,
    }
}

/// Marks the blocks of a pair.
fn pass(passed: &mut [bool], pair: (u32, u32)) {
    pass_block(passed, pair.0);
    pass_block(passed, pair.1);
}

/// Marks a block.
fn pass_block(passed: &mut [bool], block: u32) {
    if let Some(flag) = passed.get_mut(block as usize) {
        *flag = true;
    }
}

/// Whether a block of a pair is marked.
fn is_passed(passed: &[bool], pair: (u32, u32)) -> bool {
    passed.get(pair.0 as usize) == Some(&true) || passed.get(pair.1 as usize) == Some(&true)
}
