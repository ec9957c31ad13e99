//! Laws of new images: each function does nothing but call laws, and its contract is the law.

ghost use Rattle.lfs_pack.specs.NewImages.{NewImagesHold};
ghost use Rattle.lfs_pack.specs.OutlinesTaken.{SoundOutlinesCanBeTaken};
ghost use Rattle.lfs_pack.specs.Unwritten.{CommandsGoOn, ErasedAreUnwritten, UnwrittenCanBeFinished};

use lfs_file::{chains_stay_on_their_blocks, laid_blocks_are_chains};
use lfs_fs::{both_sides_hold, entries_are_cut_greedily, outlines_are_sound};
use lfs_law::{cuts_follow, free_after};
use lfs_meta::names_are_decided;

/// A law: a sound outline of an image's size and count can be written into the image, where each part fits one block, has no share of
/// the global state, and the second block of its pair is erased.
pub fn sound_outlines_can_be_taken()
    ensures { SoundOutlinesCanBeTaken }
{
    names_are_decided();
}

/// A law: an image with the chains of a sound volume, into which the volume's outline is then written, holds the volume.
pub fn new_images_hold()
    ensures { NewImagesHold }
{
    chains_stay_on_their_blocks();
    both_sides_hold();
}

/// A law: an erased image is one of the root alone, whose parts aren't written yet (`begin`); a command of a row, whose contents are laid
/// and whose old ones are erased, leads to another such image (`go_on`); and where the outline is written, it is the volume's image
/// (`finish`).
pub fn unwritten_images_go_on()
    ensures begin { ErasedAreUnwritten }
    ensures go_on { CommandsGoOn }
    ensures finish { UnwrittenCanBeFinished }
{
    chains_stay_on_their_blocks();
    laid_blocks_are_chains();
    entries_are_cut_greedily();
    cuts_follow();
    free_after();
    outlines_are_sound();
    sound_outlines_can_be_taken();
    new_images_hold();
}
