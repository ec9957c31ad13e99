//! Columns of a listing.

ghost use Rattle.std.specs.Prelude.{◌≡◌, ◌-◌, ◌++◌, OnOk, length, replicate};
ghost use Rattle.lfs_listing.specs.Listing.{in_ten_places};

use std::alloc::AllocError;

/// What fills ten places.
const SPACES: [u8; 10] = [b' '; 10];

/// The spaces before a word in ten places.
fn spaces_before(word: &[u8]) -> &'static [u8]
    ensures { result.now ≡ replicate (10 - length word.now) 32 }
{
    let filled = word.len().min(SPACES.len());
    SPACES.split_at(filled).1
}

/// Adds a word at the right of ten places.
pub(crate) fn append_column(text: &mut Vec<u8>, word: &[u8]) -> Result<(), AllocError>
    ensures { OnOk result (text.new.items ≡ text.old.items ++ in_ten_places word.now) }
{
    text.extend_from_slice(spaces_before(word))?;
    text.extend_from_slice(word)
}
