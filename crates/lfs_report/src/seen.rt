//! What is seen of a step before it is run.

use crate::stated::Sight;

/// What is seen of a step before it is run, which takes its bytes.
#[derive(Clone, Copy)]
pub struct Seen {
    /// What is seen of the image that another is compared with.
    pub other: Sight,
    /// How many blocks the image gets that it makes.
    pub count: Option<usize>,
}
