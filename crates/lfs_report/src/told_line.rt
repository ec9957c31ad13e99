//! A line of a script, as it is told.

use lfs_texts::Flaw;
use std::fmt;

/// A line of a script that is refused, as it is told on standard error.
#[derive(Clone, Copy)]
pub struct ToldLine<'a> {
    /// The line's number.
    pub number: usize,
    /// What is wrong in it, where it says no step.
    pub flaw: Option<Flaw>,
    /// Its text, which is shown as it was typed but for control bytes and those that aren't ASCII.
    pub text: &'a [u8],
}

impl fmt::Display for ToldLine<'_> {
    fn fmt<W: fmt::Write>(&self, f: &mut fmt::Formatter<W>) -> fmt::Result {
        write!(f, "line {}", self.number)?;
        if let Some(flaw) = self.flaw {
            write!(f, ", column {}: {}", flaw.column, flaw.reason)?;
        }
        f.write_str(": ")?;
        for &byte in self.text {
            match byte {
                0..=0x1f | 0x7f..=0xff => write!(f, "\\x{byte:02x}")?,
                _ => f.write_char(char::from(byte))?,
            }
        }
        Ok(())
    }
}
