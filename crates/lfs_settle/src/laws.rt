//! Laws of settled images: each function does nothing but call laws, and its contract is the law.

ghost use Rattle.lfs_settle.specs.Relaid.{RelaidImagesHoldWhatIsRead};
ghost use Rattle.lfs_settle.specs.Laws.{ClosedAreReached, MovedEntryGoes, NamedAreReached, NothingEndedStays, OthersStay, SettledAreLinked, SettledHaveNoState, SettledImagesHoldWhatIsRead, SettledNameNoMore, SettledStay, SettledStays};

use lfs_file::chains_stay_on_their_blocks;
use lfs_fs::{both_sides_hold, same_readings_hold_the_same, stored_links_stay};

/// A law: the entry that a move names goes, and no other one.
pub fn moved_entries_go()
    ensures goes { MovedEntryGoes }
    ensures stay { OthersStay }
{}

/// A law: settled parts are one thread without a state, of pairs that were there. Parts that are settled stay.
pub fn settled_parts_are_a_thread()
    ensures linked { SettledAreLinked }
    ensures named { SettledNameNoMore }
    ensures no_state { SettledHaveNoState }
    ensures stay { SettledStay }
{}

/// A law: if nothing is ended, the parts of the thread stay, but for their shares of the state.
pub fn nothing_ended_stays()
    ensures { NothingEndedStays }
{}

/// A law: directories that paths of any length lead to are reached, and some directories that paths lead to, whose entries name no other
/// one, are all that are reached.
pub fn reached_directories_are_closed()
    ensures named { NamedAreReached }
    ensures closed { ClosedAreReached }
{}

/// A law: a settled image holds the sound volumes that version 2.1 reads in the other one once it is settled, and no other.
pub fn settled_images_hold_what_is_read()
    ensures { SettledImagesHoldWhatIsRead }
{
    chains_stay_on_their_blocks();
    stored_links_stay();
    both_sides_hold();
    same_readings_hold_the_same();
}

/// A law: the sound volume that an image holds stays once it is settled.
pub fn settled_stays()
    ensures { SettledStays }
{
    same_readings_hold_the_same();
}

/// A law: an image that is settled and then joined holds the sound volumes that a device reads in the other one, and no other.
pub fn relaid_images_hold_what_is_read()
    ensures { RelaidImagesHoldWhatIsRead }
{
    chains_stay_on_their_blocks();
    stored_links_stay();
    both_sides_hold();
    same_readings_hold_the_same();
}
