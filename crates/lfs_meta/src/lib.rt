//! Metadata pairs, read: the tags of a log replayed to entries, a tail and a delta, and the live block of a pair.
#![tactic(auto)]

mod action;
mod attribute;
mod attribute_copies;
mod attribute_ref;
mod attributes;
mod body;
mod body_ref;
mod complete;
mod cutting;
mod entry;
mod entry_draft;
mod held_laws;
mod kind;
mod laws;
mod live_block;
mod name;
mod part;
mod part_draft;
mod read;
mod replay;
mod runs;
mod tail;
mod weighing;

pub use attribute::{Attribute, remove_attribute, set_attribute};
pub use attribute_copies::copied_attributes;
pub use body::Body;
pub use cutting::{cut, run_takes};
pub use entry::Entry;
pub use held_laws::{
    held_parts_are_complete, held_parts_have_few_entries, pairs_without_a_part_have_a_cause,
};
pub use kind::Kind;
pub use laws::{
    live_blocks_are_read, names_are_decided, parts_depend_on_their_blocks,
    unread_pairs_hold_no_part,
};
pub use live_block::{LiveBlock, revision};
pub use name::is_name;
pub use part::Part;
pub use read::read_pair;
pub use runs::{
    lists_have_a_run, runs_are_greedy, runs_are_the_only_ones, runs_behind_first,
    runs_follow_weights, runs_join,
};
pub use tail::Tail;
pub use weighing::{attributes_weight, weight};
