//! Parts of a known outline.

use crate::outline_part::OutlinePart;
use lfs_meta::Tail;
use std::marker::Model;

/// A part of a known outline, with the tail behind it. Its meaning is the link of the thread.
#[derive(Drop)]
pub(crate) struct KnownPart {
    /// The part.
    pub(crate) part: OutlinePart,
    /// The tail behind it.
    pub(crate) tail: Tail,
}

impl Model for KnownPart {
    ghost use Rattle.lfs_fs.specs.Thread.{Link};

    ghost Value = { Link };

    ghost view = { λ k. record { part = k.part; tail = k.tail } };

    ghost invariant = { λ k. Unit };
}

impl KnownPart {
    ghost use Rattle.std.specs.Prelude.{◌≡◌, IsTrue};

    /// Whether it stands at a pair.
    pub(crate) fn stands_at(&self, pair: (u32, u32)) -> bool
        ensures { IsTrue result → self.now.part.pair ≡ pair }
    {
        let (first, second) = self.part.pair();
        first == pair.0 && second == pair.1
    }
}
