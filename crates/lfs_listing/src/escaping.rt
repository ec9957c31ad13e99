//! Bytes of a path as they are shown.

ghost use Rattle.std.specs.Prelude.{◌≡◌, ◌++◌, OnOk, flat_map};
ghost use Rattle.lfs_listing.specs.Listing.{shown_byte};

use crate::digits::append_digits;
use std::alloc::AllocError;

/// Adds a byte as it is shown.
fn append_shown(text: &mut Vec<u8>, byte: u8) -> Result<(), AllocError>
    ensures { OnOk result (text.new.items ≡ text.old.items ++ shown_byte byte) }
{
    match byte {
        b'\\' | 0..=0x1f | 0x7f..=0xff => {
            text.extend_from_slice(b"\\x")?;
            append_digits(text, byte)
        }
        _ => Ok(text.push(byte)?),
    }
}

/// Adds bytes as a listing shows them: a printable one of ASCII other than the backslash as itself, and `\x` with two digits for
/// each other one.
pub fn append_all_shown(text: &mut Vec<u8>, bytes: &[u8]) -> Result<(), AllocError>
    ensures { OnOk result (text.new.items ≡ text.old.items ++ flat_map shown_byte bytes.now) }
{
    for &byte in bytes {
        append_shown(text, byte)?;
    }
    Ok(())
}
