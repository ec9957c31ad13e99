//! What is packed at a path.

/// What is packed at a path: a directory or a file, with its attributes.
#[derive(Clone, Copy)]
pub struct PackRow<'a> {
    /// The text of the path.
    pub path: &'a [u8],
    /// A file's contents; a directory has none.
    pub bytes: Option<&'a [u8]>,
    /// The greatest length with which they stand in the file's entry.
    pub most: u32,
    /// The attributes, by kind, with their values.
    pub attributes: &'a [(u8, Vec<u8>)],
}
