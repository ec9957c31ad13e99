//! Why what stands at a place does not mount.

use lfs_block::{ImageFault, MountFault};

/// Why what stands at a place of a file does not mount.
#[derive(Clone, Copy, Debug, PartialEq, Eq)]
pub enum Unmounted {
    /// Its bytes are no image.
    Image(ImageFault),
    /// It is an image that does not mount.
    Mount(MountFault),
}
