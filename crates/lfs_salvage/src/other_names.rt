//! Names of an image that a host may not have.

ghost use Rattle.std.specs.Prelude.{◌≡◌};
ghost use Rattle.std.specs.List.{list_any};
ghost use Rattle.lfs_salvage.specs.Word.{has_other_names, is_other_name};
ghost use Rattle.lfs_survey.specs.AllPlaces.{found_entries};

use crate::words::own_word;
use lfs_meta::Entry;
use lfs_survey::{Area, Found};

/// How many bytes of a name most hosts take.
const MOST: usize = 255;

/// Whether a host may not have a name as it is: it isn't UTF-8, holds a byte of zero, or is longer than most hosts take.
fn is_other_name(name: &[u8]) -> bool
    ensures { result ≡ is_other_name name.now }
{
    own_word(name).is_none() || name.len() > MOST
}

/// Whether one of the names of entries is so.
fn are_other_names(entries: &[Entry]) -> bool
    ensures { result ≡ list_any (λ e. is_other_name e.name) entries.now }
{
    entries.iter().any(|entry| is_other_name(&entry.name))
}

/// Whether one of the names of what is found is so.
fn has_other_name(found: &Found) -> bool
    ensures { result ≡ list_any (λ e. is_other_name e.name) (found_entries found.now) }
{
    match found {
        Found::Part(part) => are_other_names(&part.entries),
        Found::Refused(_) => false,
    }
}

/// Whether one of the names of what is found of an area is so.
fn has_other_names_in(found: &[Found]) -> bool
    ensures { result ≡ list_any (λ f. list_any (λ e. is_other_name e.name) (found_entries f)) found.now }
{
    found.iter().any(|found| has_other_name(found))
}

/// Whether one of the names that are found of areas is one that a host may not have as it is: it isn't UTF-8, holds a byte of zero, or is
/// longer than 255 bytes.
pub fn has_other_names(areas: &[Area]) -> bool
    ensures { result ≡ has_other_names areas.now }
{
    areas.iter().any(|area| has_other_names_in(&area.found))
}
