//! What is made under a name.

/// What is made under a name.
#[derive(Clone, Copy, Debug, PartialEq, Eq)]
pub(crate) enum Thing {
    /// A folder.
    Folder,
    /// A file, which is begun.
    File,
}
