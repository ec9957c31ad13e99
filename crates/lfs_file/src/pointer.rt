//! The pointers in front of a block.

ghost use Rattle.std.specs.Prelude.{◌≡◌, ◌≤◌, ◌+◌, ◌*◌, length};
ghost use Rattle.lfs_file.specs.Pointer.{pointer};

use byteorder::{ByteOrder, LittleEndian};

/// Pointer `i` of a block.
pub(crate) fn pointer_at(block: &[u8], i: usize) -> u32
    requires { 4 * i + 4 ≤ length block.now }
    ensures { result ≡ pointer block.now i }
{
    LittleEndian::read_u32(&block[4 * i..])
}
