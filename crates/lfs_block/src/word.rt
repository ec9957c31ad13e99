//! Words of bytes.

ghost use Rattle.std.specs.Prelude.{◌≡◌, ◌≤◌, length};
ghost use Rattle.std.specs.Int.{w32, from_le_bytes};

use byteorder::{ByteOrder, LittleEndian};

/// The first four bytes as a number, the lowest first.
pub fn little_word(bytes: &[u8]) -> u32
    requires { 4 ≤ length bytes.now }
    ensures { result ≡ from_le_bytes w32 bytes.now }
{
    LittleEndian::read_u32(bytes)
}
