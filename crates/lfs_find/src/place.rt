//! Where in a file an image may begin.

/// Where in a file an image may begin, and what its superblock states.
#[derive(Clone, Copy, Debug, PartialEq, Eq)]
pub struct Place {
    /// The byte of the file at which it begins.
    pub at: usize,
    /// The version: its major number in the upper half, and its minor number in the lower one.
    pub version: u32,
    /// The size of its blocks, in bytes.
    pub size: u32,
    /// The number of its blocks.
    pub count: u32,
}
