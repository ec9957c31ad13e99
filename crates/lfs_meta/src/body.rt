//! Structs of entries.

/// Where an entry's contents stand.
///
/// Source: SPEC.md, "Metadata types".
#[derive(Drop)]
pub enum Body {
    /// The contents, of at most 1,022 bytes.
    Inline(Vec<u8>),
    /// A skip list: its last block, and the contents' length in bytes.
    Chain { head: u32, size: u32 },
    /// The first pair of a directory.
    Directory(u32, u32),
}
