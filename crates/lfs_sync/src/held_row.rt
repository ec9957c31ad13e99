//! A row of an image, at or below a path.

use lfs_fs::Row;

/// A row of an image at or below a path, of which its own is kept as far as it is left.
#[derive(Drop)]
pub(crate) struct HeldRow<'a> {
    /// What is left of its path.
    pub(crate) path: Vec<&'a [u8]>,
    /// The row.
    pub(crate) row: Row<'a>,
}
