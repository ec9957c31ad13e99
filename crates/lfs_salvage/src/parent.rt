//! Where a file that is saved stands.

/// Where the entry of a file that is saved stands. The numbers count from 0.
#[derive(Clone, Copy, Debug, PartialEq, Eq)]
pub struct Parent {
    /// The area.
    pub area: usize,
    /// Its call.
    pub call: usize,
    /// The entry of the part that is found there.
    pub entry: usize,
}
