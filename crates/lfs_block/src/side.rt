//! The two sides of a change.

/// Before a change, or after it.
#[derive(Clone, Copy, PartialEq, Eq)]
pub enum Side {
    /// Before it.
    Old,
    /// After it.
    New,
}
