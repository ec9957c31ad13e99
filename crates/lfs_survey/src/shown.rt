//! How bytes of a path are shown.

use std::fmt;

/// Bytes of a path, as they are shown.
#[derive(Clone, Copy)]
pub struct Shown<'a> {
    /// The bytes.
    pub bytes: &'a [u8],
}

impl fmt::Display for Shown<'_> {
    fn fmt<W: fmt::Write>(&self, f: &mut fmt::Formatter<W>) -> fmt::Result {
        for &byte in self.bytes {
            match byte {
                b'\\' | 0..=0x1f | 0x7f..=0xff => write!(f, "\\x{byte:02x}")?,
                _ => f.write_char(char::from(byte))?,
            }
        }
        Ok(())
    }
}
