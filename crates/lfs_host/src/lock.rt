//! Whether a run holds the lock of a file.

/// Whether a run holds the lock of a file until it ends.
#[derive(Clone, Copy, PartialEq, Eq)]
pub enum Lock {
    /// It does.
    Held,
    /// Another run holds it.
    HeldByAnother,
    /// There is no such file.
    NoFile,
}
