//! A new image at work.

use lfs_block::Image;
use lfs_fs::{Outline, UsedBlocks};

/// A new image at work: the contents of files stand in it already, and its parts are written at the end. Beside it are the outline of the
/// volume so far, and the table of the blocks that this uses.
#[derive(Drop)]
pub(crate) struct NewImage {
    /// The image, erased but for the contents of files.
    pub(crate) image: Image,
    /// The outline of the volume.
    pub(crate) outline: Outline,
    /// The blocks that it uses.
    pub(crate) used: UsedBlocks,
}
