//! Directories of an outline.

use crate::outline_entry::OutlineEntry;
use crate::outline_part::{OutlinePart, named_in};
use std::alloc::{AllocError, Global};
use std::marker::Model;

/// The parts of a directory.
#[derive(Drop)]
pub struct OutlineParts {
    /// The first part.
    pub first: OutlinePart,
    /// The parts that hard tails join to it, in order.
    pub more: Vec<OutlinePart>,
}

/// A first part and the parts that hard tails join to it. Its meaning is the directory of a volume. The parts stand in a box, so
/// that eight bytes for each directory behind it move where one is put into the thread.
#[derive(Drop)]
pub struct OutlineDirectory {
    /// The parts.
    pub parts: Box<OutlineParts>,
}

impl Model for OutlineDirectory {
    ghost use Rattle.lfs_fs.specs.Directory.{Directory};

    ghost Value = { Directory };

    ghost view = { λ d. record { first = d.parts.value.first; more = d.parts.value.more.items } };

    ghost invariant = { λ d. Unit };
}

impl OutlineDirectory {
    ghost use Rattle.std.specs.Prelude.{◌≡◌, IfOk, find, length, slice_get};
    ghost use Rattle.std.specs.Option.{option_map};
    ghost use Rattle.lfs_fs.specs.Directory.{begins_at, entries, key, parts};
    ghost use Rattle.lfs_fs.specs.Entry.{is_named};

    /// The directory of a first part and those behind it. Takes memory.
    pub fn new(
        alloc: Global,
        first: OutlinePart,
        more: Vec<OutlinePart>,
    ) -> Result<OutlineDirectory, AllocError>
        ensures { IfOk result (λ d. d ≡ record { first = first; more = more.items }) }
    {
        let parts = Box::new(alloc, OutlineParts { first, more })?;
        Ok(OutlineDirectory { parts })
    }

    /// One of its parts.
    pub(crate) fn part(&self, index: usize) -> Option<&OutlinePart>
        ensures { option_map (λ p. p.now) result ≡ slice_get (parts self.now) index }
    {
        if index == 0 {
            Some(&self.parts.first)
        } else {
            self.parts.more.get(index - 1)
        }
    }

    /// The first of its entries that has a name.
    pub(crate) fn named(&self, name: &[u8]) -> Option<&OutlineEntry>
        ensures { option_map (λ e. e.now) result ≡ find (is_named name.now) (entries self.now) }
    {
        match self.parts.first.named(name) {
            Some(entry) => Some(entry),
            None => named_in(&self.parts.more, name),
        }
    }

    /// Whether its first pair has these blocks, the lesser one first.
    pub fn begins_at(&self, pair: (u32, u32)) -> bool
        ensures { result ≡ begins_at pair self.now }
    {
        let (first, second) = self.key();
        pair.0 == first && pair.1 == second
    }

    /// The number of its parts.
    pub(crate) fn len(&self) -> usize
        ensures { result ≡ length (parts self.now) }
    {
        self.parts.more.len() + 1
    }

    /// The pair that entries name it by: the lesser block first.
    pub(crate) fn key(&self) -> (u32, u32)
        ensures { result ≡ key self.now }
    {
        self.parts.first.key()
    }
}
