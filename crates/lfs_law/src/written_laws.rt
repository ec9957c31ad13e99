//! Laws of what is written of an outline: each function does nothing but call laws, and its contract is the law.

ghost use Rattle.lfs_law.specs.CutWritten.{CutLinksCanBeAdded, CutLinksCanBeWritten, HeldBytesAreMade, MadeBytesSay, NewPairsAreFresh};
ghost use Rattle.lfs_law.specs.Lengthened.{LengthenedImagesHold};
ghost use Rattle.lfs_law.specs.OutlineLaws.{LinksAreAdded, LinksAreFree, LinksAreLeft, NewPairsAreFilled, NoLinksAreWritten, OutlinesAreWritten, PairsAreChanged};
ghost use Rattle.lfs_law.specs.PlansHold.{BlocksAreTaken, BlocksAreWrittenOnce, LeastAreFree, PlansAreFrugal, PlansHold, TablesTellChanged, TablesTellNew};
ghost use Rattle.lfs_law.specs.PlansWritten.{CommandsAreWritten, LaidAreThere};

use crate::laws::{commands_are_frugal, commands_follow, cuts_follow, written_volumes_are_held};
use lfs_block::kept_counts_change_their_blocks;
use lfs_file::{
    chains_stay_on_their_blocks, contents_have_their_length, files_have_one_chain,
    laid_blocks_are_chains,
};
use lfs_fs::{both_sides_hold, entries_are_cut_greedily, stored_links_stay};
use lfs_meta::{live_blocks_are_read, names_are_decided, parts_depend_on_their_blocks};
use lfs_tag::laws::blocks_have_a_log;

/// A law: links are written one after another, none at first (`none`): one that is set by changes of its pair's blocks, where none of
/// those written before uses one of them (`added`), so that there is no change of them yet (`free`), and one that isn't set by no
/// change (`left`).
pub fn links_are_written_in_turn()
    ensures none { NoLinksAreWritten }
    ensures free { LinksAreFree }
    ensures added { LinksAreAdded }
    ensures left { LinksAreLeft }
{}

/// A law: where a patch writes the links of an outline, the chains of its volume are there, and nothing else that the old volume used
/// is written, the patch writes the volume (`written`), what is new stands in the first blocks of new pairs (`filled`), and pairs that
/// were there are changed as their links are written (`changed`).
pub fn outlines_are_written()
    ensures written { OutlinesAreWritten }
    ensures filled { NewPairsAreFilled }
    ensures changed { PairsAreChanged }
{
    kept_counts_change_their_blocks();
}

/// A law: where a patch writes the outline of what an accepted command leaves, cut, the patched image holds it.
pub fn plans_hold()
    ensures { PlansHold }
{
    cuts_follow();
    commands_are_frugal();
    written_volumes_are_held();
    both_sides_hold();
    outlines_are_written();
}

/// A law: the blocks that are written for an accepted command are those that it takes and one of the pair of each part that it
/// rewrites (`taken`), none of them twice (`once`).
pub fn written_blocks_are_taken()
    ensures taken { BlocksAreTaken }
    ensures once { BlocksAreWrittenOnce }
{}

/// A law: the least free blocks are free.
pub fn least_blocks_are_free()
    ensures { LeastAreFree }
{}

/// A law: a table of the blocks that a volume uses tells its pairs from new ones, where links are written (`new`) and where pairs are
/// changed (`changed`).
pub fn tables_tell_new_pairs()
    ensures new { TablesTellNew }
    ensures changed { TablesTellChanged }
{}

/// A law: a file's contents that are laid in blocks are there when the links are written.
pub fn laid_contents_are_there()
    ensures { LaidAreThere }
{
    laid_blocks_are_chains();
    kept_counts_change_their_blocks();
}

/// A law: where a command takes the least free blocks, as many are changed as it needs and one more for each part that it rewrites, and
/// these are they.
pub fn plans_are_frugal()
    ensures { PlansAreFrugal }
{}

/// A law: where an accepted command's new contents and the links of what it leaves, cut, are written, its outline is: the chains of
/// the volume stay, and so do the root's attributes where its first part does.
pub fn commands_are_written()
    ensures { CommandsAreWritten }
{
    cuts_follow();
    entries_are_cut_greedily();
    kept_counts_change_their_blocks();
    files_have_one_chain();
    contents_have_their_length();
    chains_stay_on_their_blocks();
}

/// A law: the links that are set of what an accepted command leaves, cut, may be written (`written`). A part in a new
/// pair has no share of the global state (`fresh`). So all of them can be written behind the changes of new contents,
/// as a table of the blocks that the volume uses tells its pairs from new ones (`added`).
pub fn cut_links_can_be_written()
    ensures written { CutLinksCanBeWritten }
    ensures fresh { NewPairsAreFresh }
    ensures added { CutLinksCanBeAdded }
{
    names_are_decided();
    commands_follow();
    cuts_follow();
}

/// A law: an image that is lengthened holds the same parts of a sound volume, with the superblock as it was.
pub fn lengthened_images_hold()
    ensures { LengthenedImagesHold }
{
    parts_depend_on_their_blocks();
    chains_stay_on_their_blocks();
    stored_links_stay();
}

/// A law: the struct of a superblock that is made of a volume's size, count and limits says them.
pub fn made_superblocks_say_their_volume()
    ensures { MadeBytesSay }
{}

/// A law: the struct of the superblock of an image that holds a sound volume is the one that is made of the volume's size, count and
/// limits.
pub fn held_superblocks_are_made()
    ensures { HeldBytesAreMade }
{
    live_blocks_are_read();
    blocks_have_a_log();
}
