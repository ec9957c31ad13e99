//! What a folder has at a path.

/// What a folder has at a path below it: a directory, or a file with its contents.
#[derive(Clone, Copy)]
pub struct SyncRow<'a> {
    /// The text of the path: `/` for the folder itself, and else a slash before each name.
    pub path: &'a [u8],
    /// A file's contents; a directory has none.
    pub bytes: Option<&'a [u8]>,
}
