//! What is found from one pair on.

use crate::call::Call;
use crate::found::Found;

/// What is found from one pair on: over the entries that are directories, and over the hard tails.
#[derive(Drop)]
pub struct Area {
    /// The pairs, in the order in which they are looked at.
    pub calls: Vec<Call>,
    /// What is found at each.
    pub found: Vec<Found>,
}
