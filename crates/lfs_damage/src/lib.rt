//! Commits with a wrong checksum, after those that are read: an older state is read than the one that was written last.
#![tactic(auto)]

mod closing;
mod damaged;
mod ended;

pub use damaged::{ends_damaged, is_damaged_pair};
