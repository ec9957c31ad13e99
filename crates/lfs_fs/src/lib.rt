//! The file system of an image: its volume, why an image does not mount, and what a mounted image shows.
#![tactic(auto)]

mod delta;
mod directory_table;
mod finding;
mod following;
mod found;
mod gathering;
mod joined;
mod keeping;
mod keeping_parts;
mod known_part;
mod known_parts;
mod known_thread;
mod laws;
mod limits;
mod marking;
mod mounted;
mod mounting;
mod names;
mod order;
mod ordering;
mod outline;
mod outline_body;
mod outline_directory;
mod outline_entry;
mod outline_part;
mod outlining;
mod path;
mod place;
mod placing;
mod pushing;
mod rereading;
mod rereading_root;
mod row;
mod row_body;
mod row_path;
mod rows;
mod state;
mod superblock;
mod thread_pairs;
mod thread_reading;
mod touching;
mod used;
mod used_blocks;
mod used_files;
mod waiting;
mod waiting_entries;

pub use delta::Delta;
pub use finding::{directory_at, entry_in};
pub use found::Found;
pub use laws::{
    both_sides_hold, entries_are_cut_greedily, entries_weigh_as_stored, fronts_begin_each_other,
    images_mount_to_one_tree, images_without_cause_mount, links_make_their_directories,
    lone_superblocks_mount, mounted_images_have_no_cause, names_are_ordered, outlines_are_sound,
    paths_are_ordered, rows_are_unique, rows_show_the_tree, same_readings_hold_the_same,
    stored_links_stay, texts_spell_one_path,
};
pub use limits::{Limits, MOST_FILE, MOST_HELD, NEW_LIMITS};
pub use mounted::Mounted;
pub use mounting::mount;
pub use names::precedes;
pub use outline::Outline;
pub use outline_body::OutlineBody;
pub use outline_directory::{OutlineDirectory, OutlineParts};
pub use outline_entry::OutlineEntry;
pub use outline_part::OutlinePart;
pub use outlining::outline_of;
pub use path::Path;
pub use place::Place;
pub use rereading::reread;
pub use row::Row;
pub use row_body::RowBody;
pub use row_path::follow;
pub use rows::Rows;
pub use superblock::VERSION;
pub use thread_reading::{ROOT, next_pair};
pub use used::mark_all;
pub use used_blocks::UsedBlocks;
