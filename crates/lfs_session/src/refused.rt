//! An image on which no journal was opened.

use lfs_block::Image;
use lfs_history::OpenFault;

/// An image on which no journal was opened, and why.
#[derive(Drop)]
pub struct Refused {
    /// Why none was opened.
    pub fault: OpenFault,
    /// The image.
    pub image: Image,
}
