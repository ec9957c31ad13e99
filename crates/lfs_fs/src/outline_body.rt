//! Where the contents of an entry stand.

/// Where what stands under a name is: a file's bytes, a file's chain with its size, or a directory's first pair.
///
/// Source: SPEC.md, "Metadata types".
#[derive(Drop)]
pub enum OutlineBody {
    /// The bytes of a file that stand in its entry.
    Inline(Vec<u8>),
    /// The blocks of a file from its first on, and its size in bytes.
    Chain { blocks: Vec<u32>, size: u32 },
    /// The first pair of a directory.
    Directory(u32, u32),
}
