//! Tags, commits and logs: what stands in a metadata block.
#![tactic(auto)]

mod edit;
mod edit_data;
pub mod laws;
mod log;
mod reading;
mod tag;
mod tags;
mod writing;

pub use edit::Edit;
pub use edit_data::EditData;
pub use log::Log;
pub use reading::{CHECKSUM_START, Committed, Found, closed, tag_at, word_after};
pub use tag::{CHECKSUM, DELETED, FIRST_WORD, NO_ID, Tag};
pub use tags::Tags;
pub use writing::{commit_fits, write_commit};
