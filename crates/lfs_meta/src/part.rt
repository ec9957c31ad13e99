//! What a metadata pair holds, all of whose entries are complete.

use crate::entry::Entry;
use crate::tail::Tail;
use std::marker::Model;

/// What a metadata pair holds. Its meaning is the pair with the part that it holds.
///
/// Source: SPEC.md, "Metadata pairs".
#[derive(Drop)]
pub struct Part {
    /// The pair.
    pub pair: (u32, u32),
    /// The entries, by id.
    pub entries: Vec<Entry>,
    /// How the thread goes on.
    pub tail: Tail,
    /// The pair's share of the global state.
    pub delta: [u8; 12],
}

impl Model for Part {
    ghost use Rattle.lfs_meta.specs.Body.{Pair};
    ghost use Rattle.lfs_meta.specs.Part.{StoredPart};

    ghost Value = { Pair × StoredPart };

    ghost view = { λ p. (p.pair, record { entries = p.entries.items; tail = p.tail; delta = p.delta }) };
}
