//! What is asked of an image.

/// What is asked of an image and its journal, which it leaves as they are; another image is there by its name, or by its bytes (`O`).
#[derive(Clone, Copy, Drop)]
pub enum Query<'a, O> {
    /// Whether it mounts, and what it holds in numbers.
    Check {
        /// The disk version that is told of it, with its major number in the upper half; once the image is read, that which it states.
        version: u32,
        /// The most bytes that a file may have that stands in its entry, if it is asked whether one has more.
        most: Option<u32>,
    },
    /// What stands at a path, and at each one below it.
    Ls {
        /// The text of the path.
        path: &'a [u8],
        /// Whether the digest of each file's contents is said too.
        digests: bool,
    },
    /// Which block holds what.
    Blocks {
        /// In place of that, how many blocks each path takes.
        sums: bool,
    },
    /// The contents of a file.
    Cat {
        /// The text of the file's path.
        path: &'a [u8],
    },
    /// What another image has otherwise.
    Diff {
        /// The other image.
        other: O,
        /// The size of its blocks, in bytes.
        size: u32,
        /// In place of that, only whether there is any.
        quiet: bool,
    },
    /// What the changes in the journal changed.
    Log,
}
