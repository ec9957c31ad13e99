//! A line that tells something.

use crate::quoted::Quoted;
use std::fmt;

/// A line that tells something on standard error: with the program's name in front, or in the alternate form as an object of JSON.
#[derive(Clone, Copy)]
pub struct Told<N, D> {
    /// The name of what it is of.
    pub of: N,
    /// What it says.
    pub text: D,
}

impl<N: fmt::Display + Drop, D: fmt::Display + Drop> fmt::Display for Told<N, D> {
    fn fmt<W: fmt::Write>(&self, f: &mut fmt::Formatter<W>) -> fmt::Result {
        if !f.alternate() {
            return write!(f, "lfsed: {}: {}\n", self.of, self.text);
        }
        let of = Quoted { text: &self.of };
        let text = Quoted { text: &self.text };
        write!(f, "{{\"of\":{of},\"text\":{text}}}\n")
    }
}
