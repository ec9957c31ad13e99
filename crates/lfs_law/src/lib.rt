//! Laws of commands, of outlines, and of what an image holds once a command is written.
#![tactic(auto)]

mod laws;
mod outline_laws;
mod walk_laws;
mod written_laws;

pub use laws::{
    commands_are_frugal, commands_follow, commands_lead_one_way, commands_set_a_part, counts_grow,
    cuts_follow, free_after, held_volumes_have_few_entries, need_is_exact, needs_are_small,
    tables_follow, written_volumes_are_held,
};
pub use outline_laws::{
    cuts_keep_outlines, outlines_are_carried, outlines_are_judged_alike, outlines_follow,
};
pub use walk_laws::{parts_are_cut_by_themselves, walks_go_by_pairs};
pub use written_laws::{
    commands_are_written, cut_links_can_be_written, held_superblocks_are_made,
    laid_contents_are_there, least_blocks_are_free, lengthened_images_hold,
    links_are_written_in_turn, made_superblocks_say_their_volume, outlines_are_written,
    plans_are_frugal, plans_hold, tables_tell_new_pairs, written_blocks_are_taken,
};
