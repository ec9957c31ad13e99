//! What the tags of a log tell of its image.

ghost use Rattle.std.specs.Prelude.{◌≡◌, ◌≤◌, ◌==◌, None, length, if◌then◌else◌};
ghost use Rattle.lfs_tag.specs.Found.{tag_found};
ghost use Rattle.lfs_tag.specs.Tag.{data_len, main_kind, word_of};
ghost use Rattle.lfs_lower.specs.Told.{is_beside, superblock_told, told_by, told_other, told_tail};

use lfs_block::little_word;
use lfs_tag::{Found, NO_ID, Tag};

/// What a superblock states of its image.
#[derive(Clone, Copy, Debug, PartialEq, Eq)]
pub struct Superblock {
    /// The disk version, with its major number in the upper half.
    pub version: u32,
    /// The size of a block, in bytes.
    pub size: u32,
    /// The number of blocks.
    pub count: u32,
}

/// What the tags of a log tell of its image.
#[derive(Clone, Copy)]
pub(crate) struct Told {
    /// What the last struct of a superblock states.
    pub(crate) superblock: Option<Superblock>,
    /// Whether entry 0 has a superblock's name.
    pub(crate) is_named: bool,
    /// The pair in which its directory goes on.
    pub(crate) next: Option<(u32, u32)>,
    /// Whether no other entry has a tag.
    pub(crate) is_alone: bool,
}

/// The word of a superblock's struct: one of 24 bytes, of entry 0.
pub(crate) const SUPERBLOCK_WORD: u32 = 0x2010_0018;
/// The word of its name, of 8 bytes.
pub(crate) const NAME_WORD: u32 = 0x0ff0_0008;
/// The word of a hard tail.
pub(crate) const HARD_TAIL_WORD: u32 = 0x601f_fc08;
/// The main type of a tail.
const TAIL: u16 = 6;
/// The superblock's name.
const NAME: [u8; 8] = *b"littlefs";

impl Told {
    ghost use Rattle.std.specs.Prelude.{◌≡◌};
    ghost use Rattle.lfs_lower.specs.Told.{told_nothing, version_told};

    /// What is told before the first tag.
    pub(crate) fn nothing() -> Told
        ensures { result ≡ told_nothing }
    {
        Told {
            superblock: None,
            is_named: false,
            next: None,
            is_alone: true,
        }
    }

    /// The disk version that a superblock's struct states, whatever its name is.
    pub(crate) fn version(self) -> Option<u32>
        ensures { result ≡ version_told self }
    {
        Some(self.superblock?.version)
    }
}

/// What the words of a superblock's struct state.
fn superblock_told(content: &[u8]) -> Superblock
    requires { 12 ≤ length content.now }
    ensures { result ≡ superblock_told content.now }
{
    Superblock {
        version: little_word(content),
        size: little_word(content.split_at(4).1),
        count: little_word(content.split_at(8).1),
    }
}

/// Whether a tag is about entry 0 or about none, and no name.
fn is_beside(tag: Tag) -> bool
    ensures { result ≡ is_beside (word_of tag) }
{
    (tag.id == 0 || tag.id == NO_ID) && tag.main_kind() != 0
}

/// What a tail tells, or a tag of another kind.
fn told_by_other(so_far: Told, tag: Tag) -> Told
    ensures { result ≡ (if main_kind (word_of tag) == 6 then told_tail so_far None else told_other so_far (word_of tag)) }
{
    if tag.main_kind() == TAIL {
        return Told {
            next: None,
            ..so_far
        };
    }
    Told {
        is_alone: so_far.is_alone && is_beside(tag),
        ..so_far
    }
}

/// What a tag tells, after others.
pub(crate) fn told_by(so_far: Told, found: Found<'_>) -> Told
    requires { length found.content.now ≡ data_len (word_of found.tag) }
    ensures { result ≡ told_by so_far (tag_found found.entry).item }
{
    match found.tag.word() {
        SUPERBLOCK_WORD => Told {
            superblock: Some(superblock_told(found.content)),
            ..so_far
        },
        NAME_WORD => Told {
            is_named: found.content == NAME.as_slice(),
            ..so_far
        },
        HARD_TAIL_WORD => Told {
            next: Some((
                little_word(found.content),
                little_word(found.content.split_at(4).1),
            )),
            ..so_far
        },
        _ => told_by_other(so_far, found.tag),
    }
}
