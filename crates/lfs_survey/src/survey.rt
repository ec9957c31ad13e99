//! All that is found of an image.

use crate::area::Area;

/// All that is found of an image, over its tree and its thread.
#[derive(Drop)]
pub struct Survey {
    /// The areas, the root's first.
    pub areas: Vec<Area>,
    /// Which blocks were looked at: one flag a block.
    pub looked: Vec<bool>,
}
