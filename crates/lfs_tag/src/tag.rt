//! Tags.

ghost use Rattle.std.specs.Prelude.{◌<◌, ◌^◌};

/// A tag: what it is about, and how much data follows it.
///
/// Source: SPEC.md, "Metadata tags".
#[derive(Clone, Copy, PartialEq, Eq)]
pub struct Tag {
    /// The type: 3 bits of main type, then 8 bits of chunk.
    pub kind: u16,
    /// The entry that the tag is about, or `NO_ID`.
    pub id: u16,
    /// The number of bytes of data, or `DELETED`.
    pub len: u16,
    /// The type has 11 bits.
    pub ghost kind_fits: { kind < 2 ^ 11 },
    /// The id has 10 bits.
    pub ghost id_fits: { id < 2 ^ 10 },
    /// The length has 10 bits.
    pub ghost len_fits: { len < 2 ^ 10 },
}

/// The word that the first tag of a block is XORed with.
pub const FIRST_WORD: u32 = 0xffff_ffff;
/// The id of a tag that is about no entry.
pub const NO_ID: u16 = 0x3ff;
/// The length of a deleted tag, which has no data.
pub const DELETED: u16 = 0x3ff;
/// The main type of a checksum's tag.
pub const CHECKSUM: u16 = 5;

impl Tag {
    ghost use Rattle.std.specs.Prelude.{◌≡◌, ◌<◌, ◌≤◌, ◌^◌, MatchOption, IfSome, bit_xor};
    ghost use Rattle.lfs_tag.specs.Tag.{word_of, main_kind, chunk_of, data_len};

    /// The tag's word.
    pub fn word(self) -> u32
        ensures { result ≡ word_of self }
    {
        (u32::from(self.kind) << 20) + (u32::from(self.id) << 10) + u32::from(self.len)
    }

    /// The tag as it is stored behind the word `prev`.
    pub fn encode(self, prev: u32) -> u32
        ensures { result ≡ bit_xor (word_of self) prev }
    {
        self.word() ^ prev
    }

    /// The tag that is stored as `word` behind the word `prev`, `None` where its valid bit says that it is none.
    pub fn decode(word: u32, prev: u32) -> Option<Tag>
        ensures { MatchOption result (2 ^ 31 ≤ bit_xor word prev)
            (λ tag. (bit_xor word prev < 2 ^ 31) × (word_of tag ≡ bit_xor word prev)) }
    {
        let plain = word ^ prev;
        if plain >= 1 << 31 {
            return None;
        }
        Some(Tag {
            kind: (plain >> 20) as u16,
            id: ((plain >> 10) & 0x3ff) as u16,
            len: (plain & 0x3ff) as u16,
        })
    }

    /// The upper 3 bits of the type.
    pub fn main_kind(self) -> u16
        ensures { result ≡ main_kind (word_of self) }
    {
        self.kind >> 8
    }

    /// The lower 8 bits of the type.
    pub fn chunk(self) -> u16
        ensures { result ≡ chunk_of (word_of self) }
    {
        self.kind % 0x100
    }

    /// The number of bytes that follow the tag: none where it is deleted.
    pub fn data_len(self) -> usize
        ensures { result ≡ data_len (word_of self) }
    {
        if self.len == DELETED {
            0
        } else {
            usize::from(self.len)
        }
    }
}
