//! Texts without control characters.

use std::fmt;
use std::fmt::Write;

/// A text on one line: of each of its control characters the bytes are shown, as `\x` and two digits, and all else as it is.
#[derive(Clone, Copy)]
pub struct OneLine<D> {
    /// What says it.
    pub text: D,
}

impl<D: fmt::Display + Drop> fmt::Display for OneLine<D> {
    fn fmt<W: fmt::Write>(&self, f: &mut fmt::Formatter<W>) -> fmt::Result {
        write!(Uncontrolled { writer: f }, "{}", self.text)
    }
}

/// Where text goes with the bytes of its control characters shown.
#[derive(Drop)]
struct Uncontrolled<'a, W> {
    writer: &'a mut W,
}

impl<W: Write> Write for Uncontrolled<'_, W> {
    fn write_str(&mut self, text: &str) -> fmt::Result {
        for character in text.chars() {
            write_shown(self.writer, character)?;
        }
        Ok(())
    }
}

/// Whether a character ends a line, or is one that a terminal obeys.
fn is_control(character: char) -> bool {
    matches!(character, '\u{0}'..='\u{1f}' | '\u{7f}'..='\u{9f}')
}

/// Whether a text has a control character.
pub fn has_control(text: &str) -> bool {
    text.chars().any(is_control)
}

/// Writes a character. The control characters from 0x80 on are two bytes each, the first of which is 0xc2.
pub(crate) fn write_shown<W: Write>(writer: &mut W, character: char) -> fmt::Result {
    if !is_control(character) {
        return writer.write_char(character);
    }
    if character >= '\u{80}' {
        writer.write_str("\\xc2")?;
    }
    write!(writer, "\\x{:02x}", character as u32)
}
