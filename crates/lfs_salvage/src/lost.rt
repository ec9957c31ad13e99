//! The folder for what no path leads to.

ghost use Rattle.std.specs.Prelude.{◌≡◌, ℕ, List, IfOk, string_bytes};
ghost use Rattle.lfs_salvage.specs.Below.{IsNameBelow};
ghost use Rattle.lfs_survey.specs.AllPlaces.{found_entries};
ghost use Rattle.lfs_salvage.specs.Lost.{area_folder, first_block, has_start, lost_word, tildes_for, tildes_in, tildes_of};
ghost use Rattle.lfs_salvage.specs.Saved.{lost_of, root_found};

use lfs_meta::Entry;
use lfs_survey::{Area, Call, Found};
use std::alloc::{AllocError, Global};

/// The name of the folder, where no other name begins so.
const NAME: &[u8] = b"lost+found";

/// How many tildes stand behind the folder's name, so that it is longer than a name that begins so.
fn tildes_for(name: &[u8]) -> usize
    ensures { result ≡ tildes_for name.now }
{
    if name.starts_with(NAME) {
        name.len() - 9
    } else {
        0
    }
}

/// How many, so that it is longer than the names of entries too.
fn tildes_of(most: usize, entries: &[Entry]) -> usize
    ensures { result ≡ tildes_of most entries.now }
{
    entries
        .iter()
        .fold(most, |most, entry| most.max(tildes_for(&entry.name)))
}

/// How many, so that it is longer than the names of what is found, too.
fn tildes_behind(most: usize, found: &Found) -> usize
    ensures { result ≡ tildes_of most (found_entries found.now) }
{
    match found {
        Found::Part(part) => tildes_of(most, &part.entries),
        Found::Refused(_) => most,
    }
}

/// How many, so that it is longer than each name of what is found.
fn tildes_in(found: &[Found]) -> usize
    ensures { result ≡ tildes_in found.now }
{
    found
        .iter()
        .fold(0, |most, found| tildes_behind(most, found))
}

/// The name of the folder for what no path leads to, where this is found of the root's area: none of its names is that
/// (`lost_words_are_new`). Takes memory.
pub fn lost_word(alloc: Global, found: &[Found]) -> Result<String, AllocError>
    ensures { IfOk result (λ word. string_bytes word ≡ lost_word found.now) }
{
    let mut word = String::from_str(alloc, "lost+found")?;
    for _ in 0..tildes_in(found) {
        word.push_str("~")?;
    }
    Ok(word)
}

/// What is found of the first of areas, the root's.
fn root_found(areas: &[Area]) -> &[Found]
    ensures { result.now ≡ root_found areas.now }
{
    match areas.first() {
        Some(root) => &root.found,
        None => &[],
    }
}

/// The host's name of the folder for what no path leads to, below that of an image of which these areas are found.
pub(crate) fn lost_folder(alloc: Global, dir: &str, areas: &[Area]) -> Result<String, AllocError>
    ensures value { IfOk result (λ lost. string_bytes lost ≡ lost_of dir.now areas.now) }
    ensures below { IsNameBelow dir.now (lost_of dir.now areas.now) }
{
    let word = lost_word(alloc, root_found(areas))?;
    format!(in alloc; "{dir}/{word}")
}

/// Whether a part is found where an area begins.
pub(crate) fn has_start(found: &[Found]) -> bool
    ensures { result ≡ has_start found.now }
{
    matches!(found.first(), Some(Found::Part(_)))
}

/// The first block of the pair that an area begins at.
fn first_block(calls: &[Call]) -> u32
    ensures { result ≡ first_block calls.now }
{
    match calls.first() {
        Some(call) => call.pair.0,
        None => 0,
    }
}

/// The host's name of the folder of an area to which no path leads.
pub(crate) fn area_folder(alloc: Global, lost: &str, area: &Area) -> Result<String, AllocError>
    ensures value { IfOk result (λ folder. string_bytes folder ≡ area_folder lost.now area.now) }
    ensures below { (top : List ℕ) → IsNameBelow top lost.now → IsNameBelow top (area_folder lost.now area.now) }
{
    let block = first_block(&area.calls);
    format!(in alloc; "{lost}/{block}")
}
