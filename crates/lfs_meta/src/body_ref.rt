//! Structs of entries, borrowed from a block.

ghost use Rattle.std.specs.Prelude.{◌≡◌, ◌≢◌, ◌+◌, ◌≤◌, length};
ghost use Rattle.lfs_meta.specs.Body.{body_named, struct_word};
ghost use Rattle.lfs_meta.specs.BodySeen.{body_seen};

use byteorder::{ByteOrder, LittleEndian};

/// Where an entry's contents stand.
///
/// Source: SPEC.md, "Metadata types".
#[derive(Clone, Copy)]
pub(crate) enum BodyRef<'a> {
    /// The contents.
    Inline(&'a [u8]),
    /// A skip list: its last block, and the contents' length in bytes.
    Chain { head: u32, size: u32 },
    /// The first pair of a directory.
    Directory(u32, u32),
}

/// The word at a place of a struct, low byte first.
pub(crate) fn struct_word(bytes: &[u8], at: usize) -> u32
    requires { at + 4 ≤ length bytes.now }
    ensures { result ≡ struct_word bytes.now at }
{
    LittleEndian::read_u32(&bytes[at..at + 4])
}

/// The struct that a tag's type and data are.
#[tactic(auto, unfolding(crate::specs::Body::body_named))]
pub(crate) fn body_named<'a>(kind: u16, bytes: &'a [u8]) -> BodyRef<'a>
    requires { kind ≢ 0x201 → 8 ≤ length bytes.now }
    ensures { body_seen result ≡ body_named kind bytes.now }
{
    match kind {
        0x201 => BodyRef::Inline(bytes),
        0x202 => BodyRef::Chain {
            head: struct_word(bytes, 0),
            size: struct_word(bytes, 4),
        },
        _ => BodyRef::Directory(struct_word(bytes, 0), struct_word(bytes, 4)),
    }
}
