//! Laws of surveys: each function does nothing, and its contract is the law.

ghost use Rattle.lfs_survey.specs.Lost.{LostAreasAreNotReached};
ghost use Rattle.lfs_survey.specs.Place.{SurveysAreRight};
ghost use Rattle.lfs_survey.specs.Reached.{AreasAreComplete};

use lfs_meta::unread_pairs_hold_no_part;

/// An area has each pair that a trail from its start leads to, unless a pair on the trail was turned away.
pub fn areas_are_complete()
    ensures { AreasAreComplete }
{
    unread_pairs_hold_no_part();
}

/// What is found at each place of a survey is right there: behind the blocks that were looked at before it, a pair holds the part that is
/// found, or isn't read for the fault.
pub fn surveys_are_right()
    ensures { SurveysAreRight }
{}

/// The root's area hasn't the pair at which the second one begins: no trail from the root leads there, unless a pair on it was turned away.
pub fn lost_areas_are_not_reached()
    ensures { LostAreasAreNotReached }
{}
