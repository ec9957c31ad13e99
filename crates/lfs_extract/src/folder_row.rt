//! Rows of a host's folder.

/// What stands at a path below a host's folder.
#[derive(Drop)]
pub struct FolderRow {
    /// The path's text: `/` for the folder itself, and else a slash before each name.
    pub path: Vec<u8>,
    /// A file's bytes, of which 2,147,483,648 are read at most; none for a folder.
    pub bytes: Option<Vec<u8>>,
}
