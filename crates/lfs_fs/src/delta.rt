//! A pair's share of the global state.

ghost use Rattle.std.specs.Prelude.{◌≡◌, ◌+◌, ◌*◌, ◌^◌};
ghost use Rattle.lfs_fs.specs.State.{little_endian};

use byteorder::{ByteOrder, LittleEndian};
use std::marker::Model;

/// A pair's share of the global state: twelve bytes as a little-endian number.
///
/// Source: SPEC.md, "0x7xx global state".
#[derive(Drop)]
pub struct Delta {
    // the first four bytes
    word: u32,
    // the other eight
    rest: u64,
}

impl Model for Delta {
    ghost use Rattle.std.specs.Prelude.{ℕ, ◌+◌, ◌*◌, ◌^◌};

    ghost Value = { ℕ };

    ghost view = { λ d. d.word + 2 ^ 32 * d.rest };

    ghost invariant = { λ d. Unit };
}

/// The twelve bytes that spell a word and the rest.
fn bytes_of(word: u32, rest: u64) -> [u8; 12]
    ensures { little_endian result ≡ word + 2 ^ 32 * rest }
{
    let mut bytes = [0; 12];
    LittleEndian::write_u32(&mut bytes[..4], word);
    LittleEndian::write_u64(&mut bytes[4..], rest);
    bytes
}

impl Delta {
    ghost use Rattle.std.specs.Prelude.{◌≡◌, ◌≢◌, MatchBool, bit_xor};
    ghost use Rattle.lfs_fs.specs.State.{little_endian, move_type, orphan_bit};

    /// The delta that changes nothing.
    pub fn none() -> Delta
        ensures { result ≡ 0 }
    {
        Delta { word: 0, rest: 0 }
    }

    /// The delta that twelve bytes spell.
    pub fn of(bytes: &[u8; 12]) -> Delta
        ensures { result ≡ little_endian bytes.now }
    {
        Delta {
            word: LittleEndian::read_u32(&bytes[..4]),
            rest: LittleEndian::read_u64(&bytes[4..]),
        }
    }

    /// The twelve bytes that spell it.
    pub fn to_bytes(&self) -> [u8; 12]
        ensures { little_endian result ≡ self.now }
    {
        bytes_of(self.word, self.rest)
    }

    /// Both deltas together, bit by bit one or the other.
    pub fn joined(&self, other: &Delta) -> Delta
        ensures { result ≡ bit_xor self.now other.now }
    {
        Delta {
            word: self.word ^ other.word,
            rest: self.rest ^ other.rest,
        }
    }

    /// The type of an unfinished move, 0 where there is none.
    pub(crate) fn move_type(&self) -> u32
        ensures { result ≡ move_type self.now }
    {
        (self.word >> 20) % 0x800
    }

    /// The bit that says that there may be directories that are not reached.
    pub(crate) fn orphan_bit(&self) -> u32
        ensures { result ≡ orphan_bit self.now }
    {
        self.word >> 31
    }

    /// Whether it changes nothing.
    pub(crate) fn is_none(&self) -> bool
        ensures { MatchBool result (self.now ≡ 0) (self.now ≢ 0) }
    {
        self.word == 0 && self.rest == 0
    }
}
