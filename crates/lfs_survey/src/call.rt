//! A pair that is looked at.

use crate::way::Way;

/// A pair that is looked at, with how it is come to.
#[derive(Clone, Copy, Debug, PartialEq, Eq)]
pub struct Call {
    /// How it is come to.
    pub way: Way,
    /// The pair.
    pub pair: (u32, u32),
}
