//! Whether a pair of a survey is one whose blocks hold no part.

ghost use Rattle.std.specs.Prelude.{◌≡◌};
ghost use Rattle.std.specs.List.{list_any};
ghost use Rattle.lfs_survey.specs.Unread.{is_unread, has_unread};

use crate::area::Area;
use crate::found::Found;
use crate::survey::Survey;
use lfs_block::MountFault;

/// Whether a pair is open and holds no part, for one of the faults 3 to 7.
fn is_unread(found: &Found) -> bool
    ensures { result ≡ is_unread found.now }
{
    match found {
        Found::Part(_) => false,
        Found::Refused(fault) => matches!(
            *fault,
            MountFault::NoValidCommit
                | MountFault::UnknownTag
                | MountFault::BadTag
                | MountFault::IncompleteEntry
                | MountFault::BadName
        ),
    }
}

/// Whether an area has such a pair.
fn is_cut(area: &Area) -> bool
    ensures { result ≡ list_any is_unread area.now.found.items }
{
    area.found.iter().any(|found| is_unread(found))
}

/// Whether a pair of a survey wasn't read for what its blocks hold, of the faults `NoValidCommit`, `UnknownTag`, `BadTag`,
/// `IncompleteEntry` and `BadName`: then what hangs below it is reached by nothing.
pub fn has_unread(survey: &Survey) -> bool
    ensures { result ≡ has_unread survey.now.areas.items }
{
    survey.areas.iter().any(|area| is_cut(area))
}
