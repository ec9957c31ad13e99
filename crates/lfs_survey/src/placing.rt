//! The first place of a survey at which a pair isn't read for a fault.

ghost use Rattle.std.specs.Prelude.{◌≡◌, MatchBool};
ghost use Rattle.lfs_survey.specs.Place.{IsFirstIn, IsPlaceOfFault};
ghost use Rattle.lfs_survey.specs.declared.found.Found.TheVariants.{Refused};

use crate::area::Area;
use crate::found::Found;
use crate::place::Place;
use crate::survey::Survey;
use lfs_block::MountFault;

/// Whether a pair isn't read for this fault.
pub(crate) fn is_refused_for(found: &Found, fault: MountFault) -> bool
    ensures { MatchBool result (found.now ≡ Refused fault) (found.now ≡ Refused fault → ⊥) }
{
    match found {
        Found::Part(_) => false,
        Found::Refused(why) => *why == fault,
    }
}

/// The number of the first pair that isn't read for this fault.
fn first_refused(found: &[Found], fault: MountFault) -> Option<usize>
    ensures { IsFirstIn fault found.now result }
{
    'each: for (index, here) in found.iter().enumerate() {
        if is_refused_for(here, fault) {
            return Some(index);
        }
    }
    None
}

/// The first place of a survey at which a pair isn't read for this fault; `None` where there is none.
pub fn first_place(survey: &Survey, fault: MountFault) -> Option<Place>
    ensures { IsPlaceOfFault fault survey.now.areas.items result }
{
    'each: for (area, here) in survey.areas.iter().enumerate() {
        if let Some(call) = first_refused(&here.found, fault) {
            return Some(Place { area, call });
        }
    }
    None
}
