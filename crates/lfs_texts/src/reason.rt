//! What may be wrong in a line.

use crate::verb::Verb;
use std::fmt;

/// What is wrong in a line that says no step.
#[derive(Clone, Copy, Debug, PartialEq, Eq)]
pub enum Reason {
    /// A space stands in front of the first word.
    SpaceInFront,
    /// Two spaces stand between words.
    TwoSpaces,
    /// A space stands behind the last word.
    SpaceBehind,
    /// Behind a backslash stands no `x` with two hexadecimal digits.
    BadEscape,
    /// A tab stands where words are counted.
    Tab,
    /// A word begins with a quote where words are counted.
    Quote,
    /// The first word is no verb.
    UnknownVerb,
    /// Fewer words stand behind this verb than it takes.
    TooFewWords(Verb),
    /// More words stand behind this verb than it takes.
    TooManyWords(Verb),
    /// A word is no number of blocks.
    BadNumber,
    /// The name of a file of the host isn't UTF-8.
    BadFile,
    /// The kind of an attribute isn't two hexadecimal digits.
    BadKind,
    /// The value of an attribute isn't two hexadecimal digits a byte.
    BadValue,
    /// The step is no command, where all of them are to be one change.
    NoCommand,
}

impl Reason {
    /// What is said, or what of it stands in front of how a verb is used.
    fn words(self) -> &'static str {
        match self {
            Reason::SpaceInFront => "a space stands in front of the first word",
            Reason::TwoSpaces => "two spaces stand between words, not one",
            Reason::SpaceBehind => "a space stands behind the last word",
            Reason::BadEscape => "no x and two hexadecimal digits stand behind a backslash",
            Reason::Tab => "a tab parts no words, one space does",
            Reason::Quote => "quotes hold no words together, \\x20 is a space in a word",
            Reason::UnknownVerb => "no step begins so, 'lfsed explain 65' says which there are",
            Reason::TooFewWords(_) => "too few words for ",
            Reason::TooManyWords(_) => "too many words for ",
            Reason::BadNumber => "COUNT is no number from 0 to 4294967295",
            Reason::BadFile => "FILE is no UTF-8",
            Reason::BadKind => "KIND isn't two digits, 0 to 9 or a to f",
            Reason::BadValue => "HEX isn't two digits for each byte, 0 to 9 or a to f",
            Reason::NoCommand => "undo, redo and forget are no part of one change",
        }
    }
}

impl fmt::Display for Reason {
    fn fmt<W: fmt::Write>(&self, f: &mut fmt::Formatter<W>) -> fmt::Result {
        f.write_str(self.words())?;
        match *self {
            Reason::TooFewWords(verb) | Reason::TooManyWords(verb) => f.write_str(verb.usage()),
            _ => Ok(()),
        }
    }
}
