//! The global state of an image.

use byteorder::{ByteOrder, LittleEndian};
use std::marker::Model;

/// The global state. Its meaning is the number that its bytes spell, the lowest first.
///
/// Source: SPEC.md, "0x7xx global state".
#[derive(Drop)]
pub(crate) struct State {
    /// Its kind, and which entry was moved.
    word: u32,
    /// The pair of that entry, its first block lowest.
    rest: u64,
}

impl Model for State {
    ghost use Rattle.std.specs.Prelude.{ℕ, ◌+◌, ◌*◌, ◌^◌};

    ghost Value = { ℕ };

    ghost view = { λ s. s.word + 2 ^ 32 * s.rest };

    ghost invariant = { λ s. Unit };
}

impl State {
    ghost use Rattle.std.specs.Prelude.{◌≡◌, ◌==◌, ◌&&◌};
    ghost use Rattle.lfs_fs.specs.State.{little_endian, move_type, orphan_bit};
    ghost use Rattle.lfs_settle.specs.Moved.{is_move, moved_entry, moved_pair};

    /// The state that twelve bytes spell.
    pub(crate) fn of(bytes: &[u8; 12]) -> State
        ensures { result ≡ little_endian bytes.now }
    {
        State {
            word: LittleEndian::read_u32(&bytes[..4]),
            rest: LittleEndian::read_u64(&bytes[4..]),
        }
    }

    /// Whether it is none.
    pub(crate) fn is_none(&self) -> bool
        ensures { result ≡ (self.now == 0) }
    {
        self.word == 0 && self.rest == 0
    }

    /// Whether it says that an entry is to be deleted.
    pub(crate) fn is_move(&self) -> bool
        ensures { result ≡ is_move self.now }
    {
        (self.word >> 20) % 0x800 == 0x4ff
    }

    /// Whether it says only that there may be directories that no path leads to.
    pub(crate) fn says_orphans(&self) -> bool
        ensures { result ≡ ((move_type self.now == 0) && (orphan_bit self.now == 1)) }
    {
        (self.word >> 20) % 0x800 == 0 && self.word >> 31 == 1
    }

    /// Which entry was moved.
    pub(crate) fn moved_entry(&self) -> usize
        ensures { result ≡ moved_entry self.now }
    {
        ((self.word >> 10) % 0x400) as usize
    }

    /// The pair of that entry.
    pub(crate) fn moved_pair(&self) -> (u32, u32)
        ensures { result ≡ moved_pair self.now }
    {
        let _word = self.word;
        let rest = self.rest;
        ((rest % 0x1_0000_0000) as u32, (rest >> 32) as u32)
    }
}
