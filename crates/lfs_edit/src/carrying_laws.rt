//! The laws that carrying a command out stands on.

ghost use Rattle.lfs_edit.specs.CarryingLaws.{CarryingLaws, WritingLaws};

use lfs_block::{grown_images_keep_their_count, resized_images_keep_their_blocks};
use lfs_fs::both_sides_hold;
use lfs_law::{
    commands_are_written, commands_follow, counts_grow, cuts_follow, free_after,
    held_superblocks_are_made, laid_contents_are_there, least_blocks_are_free,
    lengthened_images_hold, made_superblocks_say_their_volume, need_is_exact, outlines_are_carried,
    outlines_are_judged_alike, outlines_are_written, outlines_follow, plans_are_frugal, plans_hold,
    tables_tell_new_pairs, written_volumes_are_held,
};

/// The laws that carrying a command out stands on.
pub(crate) fn carrying_laws()
    ensures { CarryingLaws }
{
    both_sides_hold();
    outlines_are_judged_alike();
    outlines_are_carried();
    least_blocks_are_free();
    tables_tell_new_pairs();
    laid_contents_are_there();
    commands_are_written();
    plans_hold();
    outlines_are_written();
    plans_are_frugal();
    free_after();
    cuts_follow();
    commands_follow();
    need_is_exact();
    written_volumes_are_held();
    outlines_follow();
}

/// The laws that writing the bytes of an image that is lengthened for a command stands on.
pub(crate) fn writing_laws()
    ensures { WritingLaws }
{
    held_superblocks_are_made();
    made_superblocks_say_their_volume();
    lengthened_images_hold();
    counts_grow();
    resized_images_keep_their_blocks();
    grown_images_keep_their_count();
}
