//! New images of rows of paths, whose commands are carried out one after another, each part written once; and what an image holds, as such
//! rows.
#![tactic(auto)]

mod beginning;
mod carrying_on;
mod changing;
mod contents;
mod copying;
mod erasing;
mod filling;
mod image_laws;
mod laws;
mod laying;
mod least;
mod new_image;
mod outline_writing;
mod pack_row;
mod packing;
mod packing_laws;
mod putting;
mod repack_laws;
mod repacking;
mod rows;
mod source_row;

pub use contents::lay_contents;
pub use copying::source_rows;
pub use erasing::erase;
pub use image_laws::{new_images_hold, sound_outlines_can_be_taken, unwritten_images_go_on};
pub use laws::{least_counts_are_least, rows_are_led_to_their_map};
pub use least::{least_count, most_count};
pub use outline_writing::write_outline;
pub use pack_row::PackRow;
pub use packing::{pack, pack_within};
pub use putting::put_block;
pub use repack_laws::{rows_are_of_their_texts, rows_pack_to_their_tree};
pub use repacking::pack_rows;
pub use source_row::SourceRow;
