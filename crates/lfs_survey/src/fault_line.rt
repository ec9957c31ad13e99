//! Where in an image the fault is for which it doesn't mount, as it is told.

ghost use Rattle.std.specs.Prelude.{◌≡◌, IfOk, IfSome, MatchBool};
ghost use Rattle.lfs_survey.specs.Told.{IsFrontRefused, IsPlaceTold, IsSurveyBy, has_place};

use crate::all_lowered::all_lowered;
use crate::all_places::found_at;
use crate::entry_lines::{chain_line, misplaced_line, oversized_line, superblock_line};
use crate::pair_lines::{lost_line, range_line, unnamed_line, unread_line};
use crate::place::Place;
use crate::placing::is_refused_for;
use crate::survey::Survey;
use crate::surveying_all::survey_all;
use crate::twice_lines::twice_line;
use lfs_block::{Blocks, Image, MountFault};
use std::alloc::{AllocError, Global};

/// The first place of a fault in an image.
#[derive(Drop)]
pub struct FaultPlace {
    /// What is told of it.
    pub text: String,
    /// Whether it is the pair with which the image begins.
    pub is_front: bool,
}

/// The first place of a fault for which an image doesn't mount; nothing if it has none. Pairs are read as a device does, if the image is
/// read so. Takes memory, and tells of no place if it is refused. No clause says when a place is told, and in which words: that is tested.
pub fn fault_place(
    alloc: Global,
    image: &Image,
    fault: MountFault,
    by_device: bool,
) -> Option<FaultPlace>
    ensures { IfSome result (IsPlaceTold by_device image.now.disk fault) }
{
    match placed(alloc, image, fault, by_device) {
        Ok(place) => place,
        Err(_) => None,
    }
}

/// Whether a fault has a place.
fn has_place(fault: MountFault) -> bool
    ensures { result ≡ has_place fault }
{
    match fault {
        MountFault::NoSuperblock
        | MountFault::Version
        | MountFault::Geometry
        | MountFault::Limits
        | MountFault::UnfinishedMove
        | MountFault::UnknownState
        | MountFault::Memory => false,
        _ => true,
    }
}

/// What is found of an image, whose pairs are read as a device does where it is read so. Takes memory.
pub(crate) fn surveyed(alloc: Global, image: &Image, by_device: bool) -> Result<Survey, AllocError>
    ensures { IfOk result (IsSurveyBy by_device image.now.disk) }
{
    if !by_device {
        return survey_all(alloc, image);
    }
    let parts = all_lowered(alloc, image)?;
    survey_all(alloc, &parts)
}

/// The first place of a fault.
fn placed(
    alloc: Global,
    image: &Image,
    fault: MountFault,
    by_device: bool,
) -> Result<Option<FaultPlace>, AllocError>
    ensures { IfOk result (λ place. IfSome place (IsPlaceTold by_device image.now.disk fault)) }
{
    if !has_place(fault) {
        return Ok(None);
    }
    let survey = surveyed(alloc, image, by_device)?;
    match line_of(alloc, image, &survey, fault)? {
        Some(text) => Ok(Some(FaultPlace {
            text,
            is_front: is_front_unread(&survey, fault),
        })),
        None => Ok(None),
    }
}

/// Whether the pair with which an image begins isn't read for a fault.
fn is_front_unread(survey: &Survey, fault: MountFault) -> bool
    ensures { MatchBool result (IsFrontRefused fault survey.now.areas.items) (IsFrontRefused fault survey.now.areas.items → ⊥) }
{
    match found_at(survey, Place { area: 0, call: 0 }) {
        Some(found) => is_refused_for(found, fault),
        None => false,
    }
}

/// What is told of the first place of a fault.
fn line_of(
    alloc: Global,
    image: &Image,
    survey: &Survey,
    fault: MountFault,
) -> Result<Option<String>, AllocError> {
    match fault {
        MountFault::BadSkipList => chain_line(alloc, image, survey),
        MountFault::OrderFault => misplaced_line(alloc, survey),
        MountFault::BlockRange => range_line(alloc, survey, image.count()),
        MountFault::BlockTwice => twice_line(alloc, image, survey),
        MountFault::MissingDirectory => unnamed_line(alloc, survey),
        MountFault::Orphan => lost_line(alloc, survey),
        MountFault::SuperblockElsewhere => superblock_line(alloc, survey),
        MountFault::BadSize => oversized_line(alloc, survey),
        fault => unread_line(alloc, survey, fault),
    }
}
