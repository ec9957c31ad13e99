//! What is told of words that are refused.

use crate::cli::USAGE;
use lfs_host::Quoted;
use std::fmt;

/// A text on words that are refused: as it is, or in the alternate form an object of JSON a line.
#[derive(Clone, Copy)]
pub struct UsageLine<D> {
    /// The text.
    pub text: D,
}

impl<D: fmt::Display + Drop> fmt::Display for UsageLine<D> {
    fn fmt<W: fmt::Write>(&self, f: &mut fmt::Formatter<W>) -> fmt::Result {
        if !f.alternate() {
            return write!(f, "{}", self.text);
        }
        let text = Quoted { text: &self.text };
        write!(f, "{{\"status\":{USAGE},\"text\":{text}}}\n")
    }
}
