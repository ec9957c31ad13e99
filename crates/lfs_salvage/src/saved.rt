//! What is saved of an image.

use crate::salvage::Salvage;
use lfs_survey::Area;

/// What is saved of an image.
#[derive(Drop)]
pub struct Saved {
    /// The areas that are found: the root's, those at which the thread goes on, and those of blocks by themselves.
    pub areas: Vec<Area>,
    /// What its blocks are used for, and which files aren't saved.
    pub salvage: Salvage,
}
