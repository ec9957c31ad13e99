//! What is told of an entry at which an image has a fault.

ghost use Rattle.std.specs.Prelude.{◌≡◌};
ghost use Rattle.lfs_meta.specs.BodyHeld.{body_held};
ghost use Rattle.lfs_survey.specs.Told.{body_head, head_at};

use crate::all_places::entry_at;
use crate::chain_place::first_without_chain;
use crate::entry_faults::{first_oversized, first_superblock_elsewhere};
use crate::entry_place::EntryPlace;
use crate::limits::stated_limits;
use crate::order_place::{entry_before, first_misplaced};
use crate::path_text::name_of;
use crate::placed_text::{PairText, PlacedPath};
use crate::shown::Shown;
use crate::survey::Survey;
use crate::wrong_pointer::{WrongPointer, wrong_pointer};
use lfs_block::Image;
use lfs_fs::Limits;
use lfs_meta::{Body, Entry, Kind};
use std::alloc::{AllocError, Global};

/// The first file that has no chain.
pub(crate) fn chain_line(
    alloc: Global,
    image: &Image,
    survey: &Survey,
) -> Result<Option<String>, AllocError> {
    match first_without_chain(alloc, image, survey)? {
        Some(place) => chain_line_at(alloc, image, survey, place),
        None => Ok(None),
    }
}

/// The file at a place, which has no chain. Takes memory.
pub fn chain_line_at(
    alloc: Global,
    image: &Image,
    survey: &Survey,
    place: EntryPlace,
) -> Result<Option<String>, AllocError> {
    let Some((head, size)) = chain_of(survey, place) else {
        return Ok(None);
    };
    let path = PlacedPath::of_entry(alloc, survey, place)?;
    if let Some(wrong) = wrong_pointer(alloc, image, head, size)? {
        return Ok(Some(pointer_line(alloc, &path, wrong)?));
    }
    Ok(Some(format!(in alloc; "{path}: no chain of {size} bytes ends in block {head}")?))
}

/// A wrong pointer of the file at a path.
fn pointer_line(
    alloc: Global,
    path: &PlacedPath<'_>,
    wrong: WrongPointer,
) -> Result<String, AllocError> {
    let WrongPointer {
        block,
        named,
        wanted,
    } = wrong;
    format!(in alloc; "{path}: block {block} names block {named} and not {wanted}")
}

/// The last block of a body that is a chain, and its size.
fn head_of(body: &Body) -> Option<(u32, u32)>
    ensures { result ≡ body_head (body_held body.now) }
{
    match *body {
        Body::Chain { head, size } => Some((head, size)),
        _ => None,
    }
}

/// The last block of the file at a place, and its size, if it has a chain.
pub fn chain_of(survey: &Survey, place: EntryPlace) -> Option<(u32, u32)>
    ensures { result ≡ head_at survey.now.areas.items place }
{
    match entry_at(survey, place) {
        Some(entry) => head_of(&entry.body),
        None => None,
    }
}

/// The first entry that stands behind one before which it comes.
pub(crate) fn misplaced_line(alloc: Global, survey: &Survey) -> Result<Option<String>, AllocError> {
    let Some(place) = first_misplaced(alloc, survey)? else {
        return Ok(None);
    };
    let Some(before) = entry_before(survey, place) else {
        return Ok(None);
    };
    let pair = PairText::of(alloc, survey, place.at)?;
    let name = name_of(survey, place);
    let before = Shown {
        bytes: &before.name,
    };
    Ok(Some(format!(in alloc; "{pair}: {name} stands behind {before}")?))
}

/// The first superblock behind the one with which an image begins.
pub(crate) fn superblock_line(
    alloc: Global,
    survey: &Survey,
) -> Result<Option<String>, AllocError> {
    let Some(place) = first_superblock_elsewhere(alloc, survey)? else {
        return Ok(None);
    };
    let pair = PairText::of(alloc, survey, place.at)?;
    Ok(Some(format!(in alloc; "{pair}: a superblock stands there")?))
}

/// The first entry that is over the limits of the image.
pub(crate) fn oversized_line(alloc: Global, survey: &Survey) -> Result<Option<String>, AllocError> {
    let Some(limits) = stated_limits(survey) else {
        return Ok(None);
    };
    match first_oversized(alloc, survey, limits)? {
        Some(place) => limit_line(alloc, survey, place, limits),
        None => Ok(None),
    }
}

/// Which of these limits an entry doesn't keep.
fn limit_line(
    alloc: Global,
    survey: &Survey,
    place: EntryPlace,
    limits: Limits,
) -> Result<Option<String>, AllocError> {
    let Some(entry) = entry_at(survey, place) else {
        return Ok(None);
    };
    let (words, limit) = over_words(entry, limits);
    let path = PlacedPath::of_entry(alloc, survey, place)?;
    Ok(Some(format!(in alloc; "{path}: its {words} longer than {limit} bytes")?))
}

/// What is said of an entry over these limits, and the limit.
fn over_words(entry: &Entry, limits: Limits) -> (&'static str, u32) {
    if entry.kind != Kind::Super && entry.name.len() > limits.name as usize {
        return ("name is", limits.name);
    }
    if size_of(entry) > limits.file as usize {
        return ("contents are", limits.file);
    }
    ("attribute is", limits.attribute)
}

/// A file's size; others have none.
fn size_of(entry: &Entry) -> usize {
    match (entry.kind, &entry.body) {
        (Kind::File, Body::Inline(bytes)) => bytes.len(),
        (Kind::File, Body::Chain { size, .. }) => *size as usize,
        _ => 0,
    }
}
