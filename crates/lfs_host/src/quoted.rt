//! A text between quotes.

use std::fmt;
use std::fmt::Write;

/// A text as JSON has it, between quotes, whatever says it.
#[derive(Clone, Copy)]
pub struct Quoted<D> {
    /// What says it.
    pub text: D,
}

impl<D: fmt::Display + Drop> fmt::Display for Quoted<D> {
    fn fmt<W: fmt::Write>(&self, f: &mut fmt::Formatter<W>) -> fmt::Result {
        f.write_str("\"")?;
        write!(Escaped { writer: f }, "{}", self.text)?;
        f.write_str("\"")
    }
}

/// Where text goes with what JSON has between quotes for each of its characters.
#[derive(Drop)]
struct Escaped<'a, W> {
    writer: &'a mut W,
}

impl<W: Write> Write for Escaped<'_, W> {
    fn write_str(&mut self, text: &str) -> fmt::Result {
        for character in text.chars() {
            write_escaped(self.writer, character)?;
        }
        Ok(())
    }
}

/// Writes a character.
fn write_escaped<W: Write>(writer: &mut W, character: char) -> fmt::Result {
    match character {
        '"' => writer.write_str("\\\""),
        '\\' => writer.write_str("\\\\"),
        '\n' => writer.write_str("\\n"),
        '\u{0}'..='\u{1f}' => write!(writer, "\\u{:04x}", character as u32),
        _ => writer.write_char(character),
    }
}
