//! Where in a survey an entry is.

use crate::place::Place;

/// Where in a survey an entry is.
#[derive(Clone, Copy, Debug, PartialEq, Eq)]
pub struct EntryPlace {
    /// Where its part is.
    pub at: Place,
    /// Its number there, from 0 on.
    pub entry: usize,
}
