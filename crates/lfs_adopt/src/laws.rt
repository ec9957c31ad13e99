//! Laws of tidied images: each function does nothing but call laws, and its contract is the law.

ghost use Rattle.lfs_adopt.specs.Adopted.{AdoptedImagesHoldWhatIsAdopted, AdoptedImagesKeepTheTree, AdoptedOnce, SoundVolumesKeepTheTree};
ghost use Rattle.lfs_adopt.specs.Laws.{TidiedAreLinked, TidiedHaveEntries, TidiedHaveNoState, TidiedNameNoMore, TidiedStay};
ghost use Rattle.lfs_adopt.specs.Laws.{TidiedImagesHaveTheParts, TidiedImagesHoldWhatIsTidied, TidiedImagesKeepTheTree};
ghost use Rattle.lfs_adopt.specs.Laws.{TidiedImagesStay, TidiedKeepTheTree};

use lfs_file::chains_stay_on_their_blocks;
use lfs_fs::{both_sides_hold, same_readings_hold_the_same, stored_links_stay};
use lfs_lower::one_superblock_stays;
use lfs_settle::settled_stays;

/// A law: no tidied part to which a hard tail leads is empty. Tidied parts are one thread, of pairs that were there, without a state if
/// there was none.
pub fn tidied_parts_have_entries()
    ensures entries { TidiedHaveEntries }
    ensures no_state { TidiedHaveNoState }
    ensures linked { TidiedAreLinked }
    ensures named { TidiedNameNoMore }
{}

/// A law: parts none of which is empty after a hard tail stay, and an image with such parts stays byte for byte.
pub fn tidied_stay()
    ensures parts { TidiedStay }
    ensures images { TidiedImagesStay }
{}

/// A law: a tidied image holds the sound volumes that are read in the other one once it is tidied, and no other. If it can be tidied, the
/// parts along its thread are the tidied ones.
pub fn tidied_images_hold_what_is_tidied()
    ensures hold { TidiedImagesHoldWhatIsTidied }
    ensures parts { TidiedImagesHaveTheParts }
{
    chains_stay_on_their_blocks();
    stored_links_stay();
    both_sides_hold();
    same_readings_hold_the_same();
}

/// A law: what holds a sound volume holds one with the same tree once it is tidied, of as many blocks of the same size, with the same
/// limits and attributes of the root. And so does a tidied image.
pub fn tidied_keep_the_tree()
    ensures readings { TidiedKeepTheTree }
    ensures images { TidiedImagesKeepTheTree }
{
    chains_stay_on_their_blocks();
    stored_links_stay();
    both_sides_hold();
    same_readings_hold_the_same();
}

/// A law: an image that is taken over holds the sound volumes that are read in the other one so, and no other. So it holds a sound volume
/// with the tree that a device reads in the other one, with the same limits and attributes of the root.
pub fn adopted_images_keep_the_tree()
    ensures hold { AdoptedImagesHoldWhatIsAdopted }
    ensures tree { AdoptedImagesKeepTheTree }
{
    chains_stay_on_their_blocks();
    stored_links_stay();
    both_sides_hold();
    same_readings_hold_the_same();
}

/// A law: an image that is taken over holds a sound volume with the tree of the sound volume that version 2.1 reads in the other one. And
/// if it is taken over again, and both versions read the same of its pairs, it keeps the tree that a device read at first.
pub fn adopted_once()
    ensures sound { SoundVolumesKeepTheTree }
    ensures once { AdoptedOnce }
{
    settled_stays();
    one_superblock_stays();
    chains_stay_on_their_blocks();
    stored_links_stay();
    both_sides_hold();
    same_readings_hold_the_same();
}
