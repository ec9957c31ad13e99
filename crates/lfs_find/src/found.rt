//! What is found at a place of a file.

use crate::place::Place;
use crate::unmounted::Unmounted;

/// What is found at a place of a file.
#[derive(Clone, Copy, Debug, PartialEq, Eq)]
pub struct Found {
    /// The place.
    pub place: Place,
    /// Why it does not mount; `None` if it does.
    pub fault: Option<Unmounted>,
}
