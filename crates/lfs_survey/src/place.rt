//! Where in a survey something is.

/// Where in a survey something is. The numbers count from 0.
#[derive(Clone, Copy, Debug, PartialEq, Eq)]
pub struct Place {
    /// The area.
    pub area: usize,
    /// Its call.
    pub call: usize,
}
