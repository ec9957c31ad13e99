//! What a pair holds, in an outline.

ghost use Rattle.std.specs.Prelude.{◌≡◌, find, flat_map};
ghost use Rattle.std.specs.Option.{option_map};
ghost use Rattle.lfs_fs.specs.Entry.{is_named};

use crate::delta::Delta;
use crate::directory_table::unordered;
use crate::outline_entry::OutlineEntry;
use std::marker::Model;

/// What a pair holds, superblock and tail aside. Its meaning is the part of a volume.
#[derive(Drop)]
pub struct OutlinePart {
    /// The pair.
    pub pair: (u32, u32),
    /// The entries in order.
    pub entries: Vec<OutlineEntry>,
    /// The pair's share of the global state.
    pub delta: Delta,
    /// Whether a command sets the part.
    pub dirty: bool,
}

impl Model for OutlinePart {
    ghost use Rattle.lfs_fs.specs.Directory.{Part};

    ghost Value = { Part };

    ghost view = { λ p. record { pair = p.pair; entries = p.entries.items; delta = p.delta; dirty = p.dirty } };

    ghost invariant = { λ p. Unit };
}

impl OutlinePart {
    ghost use Rattle.std.specs.Prelude.{◌≡◌, find, length, slice_get};
    ghost use Rattle.std.specs.Option.{option_map};
    ghost use Rattle.lfs_fs.specs.Pair.{unordered};
    ghost use Rattle.lfs_fs.specs.Entry.{is_named};

    /// One of its entries.
    pub(crate) fn entry(&self, index: usize) -> Option<&OutlineEntry>
        ensures { option_map (λ e. e.now) result ≡ slice_get self.now.entries index }
    {
        self.entries.get(index)
    }

    /// The first of its entries that has a name.
    pub(crate) fn named(&self, name: &[u8]) -> Option<&OutlineEntry>
        ensures { option_map (λ e. e.now) result ≡ find (is_named name.now) self.now.entries }
    {
        self.entries.iter().find(|entry| entry.is_named(name))
    }

    /// The number of its entries.
    pub(crate) fn len(&self) -> usize
        ensures { result ≡ length self.now.entries }
    {
        self.entries.len()
    }

    /// Its pair.
    pub(crate) fn pair(&self) -> (u32, u32)
        ensures { result ≡ self.now.pair }
    {
        self.pair
    }

    /// Its pair as a set: the lesser block first.
    pub(crate) fn key(&self) -> (u32, u32)
        ensures { result ≡ unordered self.now.pair }
    {
        let (first, second) = self.pair;
        unordered(first, second)
    }
}

/// The first entry of these parts that has a name.
pub(crate) fn named_in<'a>(parts: &'a [OutlinePart], name: &[u8]) -> Option<&'a OutlineEntry>
    ensures { option_map (λ e. e.now) result ≡ find (is_named name.now) (flat_map (λ p. p.entries) parts.now) }
{
    for part in parts {
        if let Some(entry) = part.named(name) {
            return Some(entry);
        }
    }
    None
}
