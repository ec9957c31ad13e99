//! Finding the images that stand in a file.

ghost use Rattle.std.specs.Prelude.{◌≡◌, ◌<◌, ◌≤◌, ◌++◌, true, length, option_to_list, IfOk, OnOk};
ghost use Rattle.lfs_find.specs.Found.{AreFound, IsLooked, looks_at};
ghost use Rattle.lfs_find.specs.Sizes.{most_sizes};

use crate::found::Found;
use crate::judging::best_of;
use crate::places::places_at;
use crate::search::{Search, costs};
use crate::sizes::sizes_stated;
use std::alloc::{AllocError, Global};

/// What is found at a byte that is looked at, if it is listed, and how the search goes on.
fn look(
    alloc: Global,
    bytes: &[u8],
    sizes: &[u32],
    search: Search,
    at: usize,
) -> Result<(Option<Found>, Search), AllocError>
    requires within { at < length bytes.now }
    requires few { length sizes.now ≤ most_sizes }
    requires looked { looks_at bytes.now search at ≡ true }
    ensures { IfOk result (λ looked. IsLooked bytes.now sizes.now search at looked.0 looked.1) }
{
    let places = places_at(alloc, bytes, sizes, search.from, at)?;
    let best = best_of(alloc, bytes, &places)?;
    let mut behind = search;
    behind.spent += 1 + costs(&places);
    let Some(best) = best else {
        return Ok((None, behind));
    };
    behind.pass(&best);
    if search.lists(&best) {
        Ok((Some(best), behind))
    } else {
        Ok((None, behind))
    }
}

/// Adds what is found, if there is anything.
fn push_found(found: &mut Vec<Found>, here: Option<Found>) -> Result<(), AllocError>
    ensures { OnOk result (found.new.items ≡ found.old.items ++ option_to_list here) }
{
    if let Some(here) = here {
        found.push(here)?;
    }
    Ok(())
}

/// The images that stand in a file, the first one first, each with whether it mounts as a device reads it. An image begins where the
/// commits of its first pair lead along hard tails to a superblock that states the size of its blocks and a number of blocks that are
/// there. A log of the file states this size. At each byte where a first pair's log begins, an image is looked for with its block 0
/// there, and with its block 1 there; one that mounts is preferred. After one that mounts the search goes on at its end. Inside one
/// that doesn't mount, only what mounts is listed. Takes memory. At most one log is looked at for each 256 bytes, and 4,096 more; an
/// image that is tried counts as one for each 64 KiB.
pub fn find_images(alloc: Global, bytes: &[u8]) -> Result<Vec<Found>, AllocError>
    ensures { IfOk result (λ found. AreFound bytes.now found.items) }
{
    let sizes = sizes_stated(alloc, bytes)?;
    let mut search = Search::begun();
    let mut found = Vec::new(alloc);
    for at in 0..bytes.len() {
        if !search.looks_at(bytes, at) {
            continue;
        }
        let (here, behind) = look(alloc, bytes, &sizes, search, at)?;
        search = behind;
        push_found(&mut found, here)?;
    }
    Ok(found)
}
