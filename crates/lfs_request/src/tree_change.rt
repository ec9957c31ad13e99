//! Changes of whole trees.

/// A change of several commands at and below a path, which follow from what stands there. Contents are there by where they come from, or
/// in hand (`B`), and what a folder of the host has by its name, or in hand (`R`).
#[derive(Drop)]
pub enum TreeChange<'a, B, R> {
    /// What is at the path goes, and all that is below it.
    Remove {
        /// The text of the path.
        path: &'a [u8],
    },
    /// A directory is made where none is, and so are those above it that lack.
    Make {
        /// The text of the path.
        path: &'a [u8],
    },
    /// A file is put, and the directories above it are made that lack.
    Put {
        /// The text of the path.
        path: &'a [u8],
        /// The contents.
        bytes: B,
        /// The greatest length with which they stand in the file's entry.
        most: u32,
    },
    /// What stands at the path becomes what a folder of the host has.
    Sync {
        /// The text of the path.
        path: &'a [u8],
        /// What the folder has.
        rows: R,
        /// The greatest length with which a file that is put stands in its entry.
        most: u32,
    },
}
