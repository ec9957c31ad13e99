//! What is ended of what a device left unfinished.

use lfs_meta::Entry;
use std::alloc::Global;
use std::marker::Model;

/// A move that is ended. Its meaning is the pair with the entry.
#[derive(Drop)]
pub struct EndedMove {
    /// The pair of the entry's old place.
    pub pair: (u32, u32),
    /// The entry, which is gone from there.
    pub entry: Entry,
}

impl Model for EndedMove {
    ghost use Rattle.lfs_meta.specs.Body.{Pair};
    ghost use Rattle.lfs_meta.specs.Entry.{StoredEntry};

    ghost Value = { Pair × StoredEntry };

    ghost view = { λ m. (m.pair, m.entry) };
}

/// A directory that is dropped, since no path leads to it. Its meaning is the pair with the entries.
#[derive(Drop)]
pub struct DroppedDirectory {
    /// Its first pair.
    pub pair: (u32, u32),
    /// The entries of all its parts.
    pub entries: Vec<Entry>,
}

impl Model for DroppedDirectory {
    ghost use Rattle.std.specs.Prelude.{List};
    ghost use Rattle.lfs_meta.specs.Body.{Pair};
    ghost use Rattle.lfs_meta.specs.Entry.{StoredEntry};

    ghost Value = { Pair × List StoredEntry };

    ghost view = { λ d. (d.pair, d.entries.items) };
}

/// A tail of the thread that led to a directory's old place. Its meaning is the two pairs.
#[derive(Drop)]
pub struct EndedStep {
    /// The pair that the tail named.
    pub from: (u32, u32),
    /// The pair that an entry names instead.
    pub to: (u32, u32),
}

impl Model for EndedStep {
    ghost use Rattle.lfs_meta.specs.Body.{Pair};

    ghost Value = { Pair × Pair };

    ghost view = { λ s. (s.from, s.to) };
}

/// What is ended of what a device left unfinished.
#[derive(Drop)]
pub struct Ended {
    /// The move, if one was begun.
    pub moved: Option<EndedMove>,
    /// The directories that are dropped, in the order of the thread.
    pub dropped: Vec<DroppedDirectory>,
    /// The tails that led elsewhere than an entry, in the order of the thread.
    pub steps: Vec<EndedStep>,
}

impl Ended {
    ghost use Rattle.std.specs.Prelude.{◌≡◌, None, []};

    /// Nothing.
    pub(crate) fn nothing(alloc: Global) -> Ended
        ensures moved { result.moved ≡ None }
        ensures dropped { result.dropped.items ≡ [] }
        ensures steps { result.steps.items ≡ [] }
    {
        Ended {
            moved: None,
            dropped: Vec::new(alloc),
            steps: Vec::new(alloc),
        }
    }
}
