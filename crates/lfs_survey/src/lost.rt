//! The first place of a survey to which no path leads.

ghost use Rattle.lfs_survey.specs.Lost.{IsLostPlace};

use crate::place::Place;
use crate::survey::Survey;

/// The first place of a survey to which no path leads: where its second area begins, which the first one doesn't have; `None` where there
/// is none.
pub fn lost_place(survey: &Survey) -> Option<Place>
    ensures { IsLostPlace survey.now.areas.items result }
{
    if survey.areas.len() > 1 {
        Some(Place { area: 1, call: 0 })
    } else {
        None
    }
}
