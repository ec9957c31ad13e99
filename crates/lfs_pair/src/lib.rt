//! Metadata pairs, written: the tags that a part is spelled as, and blocks with them.
#![tactic(auto)]

mod aligning;
mod appending;
mod attributes_between;
mod change_edits;
mod changing;
mod difference;
mod edits;
mod entries_between;
mod entry_between;
mod fate;
mod forced;
mod laws;
mod writing;

pub use appending::append;
pub use changing::{change_pair, held_part, holds_part};
pub use forced::Forced;
pub use laws::{parts_become_others, written_parts_replay};
pub use lfs_tag::{Edit, EditData, Tag};
pub use writing::{block_with, first_block, part_block, part_weight, rewrite};
