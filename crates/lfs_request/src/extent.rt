//! How many blocks a packed image gets.

/// How many blocks a packed image gets.
#[derive(Clone, Copy)]
pub enum Extent {
    /// So many.
    Count(u32),
    /// The least number that holds the folder.
    Least,
}
