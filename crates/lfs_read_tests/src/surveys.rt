//! What is found of images that needn't mount.

use crate::images::{Head, image_of};
use crate::logs::{BELOW, TREE};
use lfs_block::{Blocks, Image, MountFault};
use lfs_survey::{
    Area, EntryPlace, Place, Survey, Way, first_misplaced, first_place, first_tail_past,
    first_unnamed, first_without_chain, has_unread, lone_areas, lost_place, survey_all,
};
use std::alloc::{AllocError, Global};

// a tree in blocks of 512 bytes, and the same with a bad pair below the root
const TREE_HEADS: [Head<'static>; 2] = [(0, TREE), (1_536, BELOW)];

const ROOT_HEADS: [Head<'static>; 1] = [(0, TREE)];

// a block by itself beside the bad pair
const LONE_HEADS: [Head<'static>; 2] = [(0, TREE), (3_072, BELOW)];

// what is found of such an image
fn surveyed(alloc: Global, heads: &[Head<'_>]) -> Option<Survey> {
    match image_of(alloc, 512, 4_096, heads) {
        Some(image) => survey_all(alloc, &image).ok(),
        None => None,
    }
}

/// Whether an area has the root's pair, and the one of its entry 3.
fn has_two_calls(area: &Area) -> bool {
    area.calls.len() == 2
        && area.found.len() == 2
        && area.calls[0].way == Way::Start
        && area.calls[0].pair == (0, 1)
        && area.calls[1].way == (Way::Entry { from: 0, index: 3 })
        && area.calls[1].pair == (4, 3)
}

/// Whether a survey has just such an area.
fn has_one_area(survey: &Survey) -> bool {
    survey.areas.len() == 1 && has_two_calls(&survey.areas[0])
}

/// Whether nothing is bad in the tree.
fn finds_tree(alloc: Global) -> bool {
    match surveyed(alloc, &TREE_HEADS) {
        Some(survey) => {
            has_one_area(&survey) && first_place(&survey, MountFault::NoValidCommit).is_none()
        }
        None => false,
    }
}

/// Whether the bad pair is found.
fn finds_bad_pair(alloc: Global) -> bool {
    match surveyed(alloc, &ROOT_HEADS) {
        Some(survey) => {
            has_one_area(&survey)
                && first_place(&survey, MountFault::NoValidCommit)
                    == Some(Place { area: 0, call: 1 })
        }
        None => false,
    }
}

/// Whether an area is of one block by itself.
fn is_alone(area: &Area, block: u32) -> bool {
    area.calls.len() == 1 && area.calls[0].way == Way::Start && area.calls[0].pair == (block, block)
}

/// Whether a survey has a pair that isn't read, and the block by itself is found, behind the root's.
fn finds_lone_block(alloc: Global, image: &Image) -> Result<bool, AllocError> {
    let survey = survey_all(alloc, image)?;
    let mut looked = vec![in alloc; false; image.count() as usize]?;
    let areas = lone_areas(alloc, image, &mut looked)?;
    Ok(has_unread(&survey) && areas.len() == 2 && is_alone(&areas[1], 6))
}

/// Whether just the file without a chain has a fault in the tree.
fn finds_lost_file(alloc: Global, image: &Image) -> Result<bool, AllocError> {
    let survey = survey_all(alloc, image)?;
    let root = Place { area: 0, call: 0 };
    let file = EntryPlace { at: root, entry: 4 };
    Ok(
        !has_unread(&survey)
            && first_without_chain(alloc, image, &survey)? == Some(file)
            && first_misplaced(alloc, &survey)?.is_none()
            && first_unnamed(alloc, &survey)?.is_none()
            && first_tail_past(alloc, &survey, 8)?.is_none()
            && first_tail_past(alloc, &survey, 4)? == Some(root)
            && lost_place(&survey).is_none(),
    )
}

/// Whether that is found in such images.
fn finds_places(alloc: Global) -> bool {
    match (
        image_of(alloc, 512, 4_096, &LONE_HEADS),
        image_of(alloc, 512, 4_096, &TREE_HEADS),
    ) {
        (Some(lone), Some(tree)) => {
            matches!(finds_lone_block(alloc, &lone), Ok(true))
                && matches!(finds_lost_file(alloc, &tree), Ok(true))
        }
        _ => false,
    }
}

#[test]
fn image_is_surveyed(rt: HostRuntime) {
    let alloc = rt.alloc();
    assert!(rt; finds_tree(alloc));
    assert!(rt; finds_bad_pair(alloc));
    assert!(rt; finds_places(alloc));
}
