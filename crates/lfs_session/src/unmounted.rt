//! An image that does not mount.

use lfs_block::{Image, MountFault};

/// An image that does not mount, and why.
#[derive(Drop)]
pub struct Unmounted {
    /// Why it does not mount.
    pub fault: MountFault,
    /// The image.
    pub image: Image,
}
