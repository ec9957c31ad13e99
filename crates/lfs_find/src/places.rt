//! Looking for places at which images may begin.

ghost use Rattle.std.specs.Prelude.{◌≡◌, ◌≤◌, ◌*◌, ◌++◌, length, option_to_list, IfOk, OnOk};
ghost use Rattle.std.specs.List.{AllByRecursion};
ghost use Rattle.lfs_find.specs.Found.{IsWithin, place_before, places_at, places_of};
ghost use Rattle.lfs_find.specs.Place.{is_first_word, log_begins, place_at, place_in};

use crate::place::Place;
use lfs_block::{geometry_ok, little_word};
use lfs_lower::{Superblock, begins_with};
use std::alloc::{AllocError, Global};

/// Whether a word is one that a device writes after the revision of a first pair's log.
fn is_first_word(word: u32) -> bool
    ensures { result ≡ is_first_word word }
{
    word == 0xf7ff_0ff0 || word == 0xffff_efbf || word == 0xf703_e09f
}

/// Whether the log of an image's first pair may begin with the bytes.
pub(crate) fn log_begins(bytes: &[u8]) -> bool
    ensures { result ≡ log_begins bytes.now }
{
    bytes.len() >= 8 && is_first_word(little_word(bytes.split_at(4).1))
}

/// The place that a superblock states, if it fits in so many bytes.
fn place_in(at: usize, room: usize, stated: Superblock) -> Option<Place>
    ensures { result ≡ place_in at room stated }
{
    let Superblock {
        version,
        size,
        count,
    } = stated;
    if geometry_ok(size, count) && count as usize * size as usize <= room {
        Some(Place {
            at,
            version,
            size,
            count,
        })
    } else {
        None
    }
}

/// The image of blocks of `size` bytes that begins at a byte of a file.
fn place_at(bytes: &[u8], size: u32, at: usize) -> Option<Place>
    requires { at ≤ length bytes.now }
    ensures { result ≡ place_at bytes.now size at }
{
    let (_, rest) = bytes.split_at(at);
    place_in(at, rest.len(), begins_with(size, rest)?)
}

/// The image whose block 0 stands one block before a byte, and not before another one.
fn place_before(bytes: &[u8], size: u32, from: usize, at: usize) -> Option<Place>
    requires within { at ≤ length bytes.now }
    requires behind { from ≤ at }
    ensures { result ≡ place_before bytes.now size from at }
{
    let size_of_block = size as usize;
    if at - from < size_of_block {
        return None;
    }
    place_at(bytes, size, at - size_of_block)
}

/// Adds a place, if there is one.
fn push_place(places: &mut Vec<Place>, place: Option<Place>) -> Result<(), AllocError>
    ensures { OnOk result (places.new.items ≡ places.old.items ++ option_to_list place) }
{
    if let Some(place) = place {
        places.push(place)?;
    }
    Ok(())
}

/// Adds the images whose first pair has a block of `size` bytes at a byte.
fn push_places(
    places: &mut Vec<Place>,
    bytes: &[u8],
    size: u32,
    from: usize,
    at: usize,
) -> Result<(), AllocError>
    requires within { at ≤ length bytes.now }
    requires behind { from ≤ at }
    ensures { OnOk result (places.new.items ≡ places.old.items ++ places_of bytes.now from at size) }
{
    push_place(places, place_at(bytes, size, at))?;
    push_place(places, place_before(bytes, size, from, at))
}

/// The images whose first pair has a block at a byte, of one of these sizes, after an image that ends at `from`.
pub(crate) fn places_at(
    alloc: Global,
    bytes: &[u8],
    sizes: &[u32],
    from: usize,
    at: usize,
) -> Result<Vec<Place>, AllocError>
    requires within { at ≤ length bytes.now }
    requires behind { from ≤ at }
    ensures places { IfOk result (λ places. places.items ≡ places_at bytes.now sizes.now from at) }
    ensures within { IfOk result (λ places. AllByRecursion (IsWithin bytes.now) places.items) }
    ensures few { IfOk result (λ places. length places.items ≤ 2 * length sizes.now) }
{
    let mut places = Vec::new(alloc);
    for size in sizes {
        push_places(&mut places, bytes, *size, from, at)?;
    }
    Ok(places)
}
