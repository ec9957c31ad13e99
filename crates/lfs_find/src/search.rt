//! Where the search for images in a file stands.

ghost use Rattle.std.specs.Prelude.{◌≡◌, ◌≤◌, ◌<◌, ◌^◌};
ghost use Rattle.lfs_find.specs.Found.{costs, end_of, extent};

use crate::found::Found;
use crate::place::Place;
use crate::places::log_begins;
use crate::sizes::may_look;

/// Where the search for images in a file stands.
#[derive(Clone, Copy)]
pub(crate) struct Search {
    /// The byte at which it goes on, after what mounts.
    pub(crate) from: usize,
    /// Where what is listed ends.
    pub(crate) until: usize,
    /// How much was read, in 64 KiB.
    pub(crate) spent: usize,
}

/// The unit in which it is counted how much is read, in bytes.
const UNIT: usize = 65_536;

/// How many bytes an image has that begins at a place.
fn extent(place: &Place) -> usize
    ensures { result ≡ extent place.now }
{
    place.count as usize * place.size as usize
}

/// Where it ends.
fn end_of(place: &Place) -> usize
    requires { end_of place.now < 2 ^ 64 }
    ensures { result ≡ end_of place.now }
{
    place.at + extent(place)
}

/// What is read of images, in 64 KiB.
pub(crate) fn costs(places: &[Place]) -> usize
    requires { costs places.now ≤ 32800 }
    ensures { result ≡ costs places.now }
{
    let mut sum = 0;
    for place in places {
        sum += extent(place) / UNIT + 1;
    }
    sum
}

impl Search {
    ghost use Rattle.std.specs.Prelude.{◌≡◌, ◌<◌, ◌≤◌, ◌^◌, length, Some};
    ghost use Rattle.lfs_find.specs.Found.{end_of, from_behind, is_listed, looks_at, search_begun, until_behind};

    /// The search before the first byte.
    pub(crate) fn begun() -> Search
        ensures { result ≡ search_begun }
    {
        Search {
            from: 0,
            until: 0,
            spent: 0,
        }
    }

    /// Whether a byte is looked at.
    pub(crate) fn looks_at(&self, bytes: &[u8], at: usize) -> bool
        requires { at ≤ length bytes.now }
        ensures { result ≡ looks_at bytes.now self.now at }
    {
        if at < self.from {
            return false;
        }
        let (_, rest) = bytes.split_at(at);
        log_begins(rest) && may_look(at, self.spent)
    }

    /// Whether what is found is listed: it mounts, or nothing that is listed has its first byte.
    pub(crate) fn lists(&self, found: &Found) -> bool
        ensures { result ≡ is_listed self.now found.now }
    {
        found.fault.is_none() || self.until <= found.place.at
    }

    /// Goes on after what is found.
    pub(crate) fn pass(&mut self, found: &Found)
        requires { end_of found.now.place < 2 ^ 64 }
        ensures from { self.new.from ≡ from_behind self.old (Some found.now) }
        ensures until { self.new.until ≡ until_behind self.old (Some found.now) }
        ensures spent { self.new.spent ≡ self.old.spent }
    {
        let end = end_of(&found.place);
        if self.lists(found) {
            self.until = end;
        }
        if found.fault.is_none() {
            self.from = end;
        }
    }
}
