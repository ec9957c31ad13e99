//! How a pair is come to.

/// How a pair is come to. The numbers count from 0.
#[derive(Clone, Copy, Debug, PartialEq, Eq)]
pub enum Way {
    /// It is begun with.
    Start,
    /// An entry of what was found at a call is a directory there: the call's number, and the entry's.
    Entry { from: usize, index: usize },
    /// The directory of what was found at a call goes on there: the call's number.
    Next { from: usize },
}
