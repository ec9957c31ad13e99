//! How the thread goes on.

ghost use Rattle.std.specs.Prelude.{◌≡◌, ◌≤◌, length};
ghost use Rattle.lfs_meta.specs.Action.{is_null};
ghost use Rattle.lfs_meta.specs.Replay.{tail_named};

use crate::body_ref::struct_word;

/// How the thread goes on behind a pair. The numbers are the next pair's blocks.
///
/// Source: SPEC.md, "0x6xx tail".
#[derive(Clone, Copy, PartialEq, Eq)]
pub enum Tail {
    /// It ends.
    End,
    /// It goes on to another directory.
    Soft(u32, u32),
    /// It goes on in the same directory.
    Hard(u32, u32),
}

/// Whether the bytes are null block pointers.
pub(crate) fn is_null(bytes: &[u8]) -> bool
    ensures { result ≡ is_null bytes.now }
{
    bytes.iter().all(|byte| *byte == 0xff)
}

/// The tail that a tail's type and data are.
#[tactic(auto, unfolding(crate::specs::Replay::tail_named))]
pub(crate) fn tail_named(kind: u16, bytes: &[u8]) -> Tail
    requires { 8 ≤ length bytes.now }
    ensures { result ≡ tail_named kind bytes.now }
{
    if is_null(bytes) {
        return Tail::End;
    }
    let first = struct_word(bytes, 0);
    let second = struct_word(bytes, 4);
    if kind == 0x600 {
        Tail::Soft(first, second)
    } else {
        Tail::Hard(first, second)
    }
}
