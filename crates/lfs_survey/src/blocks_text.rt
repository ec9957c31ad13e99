//! The numbers of a pair's blocks, as they are told.

use std::fmt;

/// The numbers of a pair's blocks, as they are told; of one block, where both are the same.
#[derive(Clone, Copy)]
pub struct BlocksText {
    /// The pair.
    pub pair: (u32, u32),
}

impl fmt::Display for BlocksText {
    fn fmt<W: fmt::Write>(&self, f: &mut fmt::Formatter<W>) -> fmt::Result {
        let (first, second) = self.pair;
        if first == second {
            write!(f, "block {first}")
        } else {
            write!(f, "blocks {first} and {second}")
        }
    }
}
