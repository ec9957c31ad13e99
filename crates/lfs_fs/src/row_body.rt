//! Where the contents of a row stand.

/// What a row has: a file's bytes, a file's chain with its size, or a directory's first pair.
#[derive(Clone, Copy, Drop)]
pub enum RowBody<'a> {
    /// The bytes of a file that stand in its entry.
    Inline(&'a [u8]),
    /// The blocks of a file from its first on, and its size in bytes.
    Chain { blocks: &'a [u32], size: u32 },
    /// The first pair of a directory.
    Directory(u32, u32),
}
