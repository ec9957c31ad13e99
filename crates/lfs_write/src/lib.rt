//! What is written of an outline: the superblock, its parts and their links, and the contents of files.
#![tactic(auto)]

mod laying;
mod link_writing;
mod linking;
mod outline_link;
mod storing;
mod superblock;
mod writing;

pub use laying::{laid, laid_for};
pub use link_writing::write_links;
pub use linking::outline_links;
pub use outline_link::OutlineLink;
pub use storing::stored_entries;
pub use superblock::new_superblock;
