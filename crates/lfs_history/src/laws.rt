//! Laws of histories: each function does nothing but call laws, and its contract is the law.

ghost use Rattle.lfs_history.specs.OpeningLaws.{HistoriesAreBooks, JournalsDenoteOneHistory, JournalsGrowByTheNeed, KeptJournalsGrowByTheNeed, SavedHistoriesAreTaken, SavedHistoriesOpen};
ghost use Rattle.lfs_history.specs.Laws.{CommandsAreEquations, CommandsPushEquations, RunsKeepHistories, StepsKeepSize, UndoIsExact, UndoIsExactAsFarAsKept, RedoIsExact, UndoAndRedoKeepImages};
ghost use Rattle.lfs_history.specs.TogetherLaws.{DoneIsOne, JournalsGrowByTheNeeds, KeptJournalsGrowByTheNeeds, OneIsDone, TogetherAreEquations, TogetherIsOneByOne, TogetherIsUndone, TogetherPushEquations};

use lfs_block::{
    applied_patches_change_their_blocks, applied_patches_revert, reverted_patches_apply_again,
};
use lfs_fs::{both_sides_hold, images_mount_to_one_tree, mounted_images_have_no_cause};
use lfs_journal::{books_are_read_once, composed_patches_apply, joints_are_short};
use lfs_law::{cuts_follow, need_is_exact, written_volumes_are_held};

/// A law: a patch that is planned for a command leaves an image that mounts, to the tree that is the command's equation of
/// the tree before, with the same size and limits, and with as many blocks as the command says.
pub fn commands_are_equations()
    ensures { CommandsAreEquations }
{
    images_mount_to_one_tree();
    cuts_follow();
}

/// A law: a command that is carried out leaves the old present image in front of those before it, of which the nearest are kept where
/// it says how many, and no image to go on to. The present image mounts to the command's equation of the old one's tree, with the same
/// size and limits, and with as many blocks as the command says.
pub fn commands_push_equations()
    ensures { CommandsPushEquations }
{
    commands_are_equations();
}

/// A law: the one patch of commands that are carried out together makes the image that their patches make one after another (`one_by_one`),
/// and this mounts to what their equations make of the tree before, one after another (`equations`).
pub fn commands_are_made_together()
    ensures one_by_one { TogetherIsOneByOne }
    ensures equations { TogetherAreEquations }
{
    composed_patches_apply();
    commands_are_equations();
}

/// A law: commands that are carried out together leave the old present image in front of those before it, of which the nearest are kept
/// where it is said how many, and no image to go on to. The present image mounts to what their equations make of the old one's tree.
pub fn commands_push_equations_together()
    ensures { TogetherPushEquations }
{
    commands_are_made_together();
}

/// A law: a list of one command that is carried out together is the command carried out (`done`), and the reverse (`together`).
pub fn lists_of_one_are_commands()
    ensures done { OneIsDone }
    ensures together { DoneIsOne }
{}

/// A law: after any steps the present image stands between whole images, each of which mounts, and which its changes lead
/// to.
pub fn runs_keep_histories()
    ensures { RunsKeepHistories }
{
    applied_patches_change_their_blocks();
    applied_patches_revert();
    reverted_patches_apply_again();
    composed_patches_apply();
    cuts_follow();
}

/// A law: a step keeps the size of the image's blocks.
pub fn steps_keep_size()
    ensures { StepsKeepSize }
{
    runs_keep_histories();
}

/// A law: a command that is carried out and taken back leaves the image and all images before it (`all`); where it says how many
/// images are kept, the image and the nearest before it, one less than that (`kept`). The same holds of commands that are carried out
/// together (`together`).
pub fn undo_is_exact()
    ensures all { UndoIsExact }
    ensures kept { UndoIsExactAsFarAsKept }
    ensures together { TogetherIsUndone }
{}

/// A law: changes that are taken back and made again, however many, leave the history.
pub fn redo_is_exact()
    ensures { RedoIsExact }
{}

/// A law: undo and redo, in any list and whatever they reply, keep all images of a history, each byte for byte, and their
/// order.
pub fn undo_and_redo_keep_images()
    ensures { UndoAndRedoKeepImages }
{}

/// A law: the changes of a history are a journal.
pub fn histories_are_books()
    ensures { HistoriesAreBooks }
{}

/// A law: bytes denote one history of an image at most (`one`). The bytes of a history's journal denote it on its image
/// (`opens`), and they are refused there for nothing but want of memory (`taken`).
pub fn saved_histories_open()
    ensures one { JournalsDenoteOneHistory }
    ensures opens { SavedHistoriesOpen }
    ensures taken { SavedHistoriesAreTaken }
{
    applied_patches_change_their_blocks();
    applied_patches_revert();
    reverted_patches_apply_again();
    books_are_read_once();
    mounted_images_have_no_cause();
}

/// A law: a command makes the journal longer by three numbers and, for each block that it needs and two more at most, the block's number,
/// its bytes before and its bytes after; a journal of version 1 also by two numbers for each change that is kept (`whole`). No more than
/// that is added even to a journal of nothing but the changes that are kept: those that were undone aren't, nor those that the command
/// drops (`kept`). Commands that are carried out together make it longer by the three numbers once, and by the blocks of each (`together`,
/// `together_kept`).
pub fn journals_grow_by_the_need()
    ensures complete { JournalsGrowByTheNeed }
    ensures kept { KeptJournalsGrowByTheNeed }
    ensures together { JournalsGrowByTheNeeds }
    ensures together_kept { KeptJournalsGrowByTheNeeds }
{
    commands_are_made_together();
    joints_are_short();
    both_sides_hold();
    need_is_exact();
    written_volumes_are_held();
}
