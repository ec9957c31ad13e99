//! What is wrong in a line, and where.

use crate::reason::Reason;

/// What is wrong in a line that says no step, and where.
#[derive(Clone, Copy, Debug, PartialEq, Eq)]
pub struct Flaw {
    /// What is wrong.
    pub reason: Reason,
    /// The column, in bytes from 1 on; the one behind the line's end where a word is missing.
    pub column: usize,
}
