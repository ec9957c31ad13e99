//! What is told on standard error in words.

use crate::one_line::{has_control, write_shown};
use std::fmt;
use std::fmt::Write;

/// How what is told of words begins that are refused. It has several lines.
const USAGE: &str = "error: ";

/// What is told: a line, or of words that are refused a text of lines. Of each control character in it the bytes are shown, but for the
/// ends of these lines: so no name ends a line, and a terminal obeys none.
#[derive(Clone, Copy)]
pub struct Plain<D> {
    /// What says it.
    pub text: D,
}

impl<D: fmt::Display + Drop> fmt::Display for Plain<D> {
    fn fmt<W: fmt::Write>(&self, f: &mut fmt::Formatter<W>) -> fmt::Result {
        let mut told = Telling {
            writer: f,
            is_begun: false,
            has_lines: false,
            may_end: false,
        };
        write!(told, "{}", self.text)?;
        told.end()
    }
}

/// Where it goes.
#[derive(Drop)]
struct Telling<'a, W> {
    writer: &'a mut W,
    /// Whether something was written.
    is_begun: bool,
    /// Whether it is a text of lines.
    has_lines: bool,
    /// Whether a line feed came last, which ends the line if nothing comes after it.
    may_end: bool,
}

impl<W: Write> Telling<'_, W> {
    /// Ends it.
    fn end(self) -> fmt::Result {
        if self.may_end {
            self.writer.write_char('\n')?;
        }
        Ok(())
    }

    /// Takes one more character.
    fn take(&mut self, character: char) -> fmt::Result {
        if self.may_end {
            self.may_end = false;
            write_shown(self.writer, '\n')?;
        }
        if character != '\n' {
            return write_shown(self.writer, character);
        }
        if self.has_lines {
            return self.writer.write_char('\n');
        }
        self.may_end = true;
        Ok(())
    }
}

impl<W: Write> Write for Telling<'_, W> {
    fn write_str(&mut self, text: &str) -> fmt::Result {
        if !self.is_begun {
            self.is_begun = !text.is_empty();
            self.has_lines = text.starts_with(USAGE);
        }
        if !self.may_end && !has_control(text) {
            return self.writer.write_str(text);
        }
        for character in text.chars() {
            self.take(character)?;
        }
        Ok(())
    }
}
