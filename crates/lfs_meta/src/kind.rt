//! What an entry is.

/// What an entry is.
///
/// Source: SPEC.md, "0x0xx name".
#[derive(Clone, Copy, PartialEq, Eq)]
pub enum Kind {
    /// A regular file.
    File,
    /// A directory.
    Dir,
    /// The superblock.
    Super,
}
