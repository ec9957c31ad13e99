//! Laws of bytes on which steps are taken: each function does nothing but call laws, and its contract is the law.

ghost use Rattle.lfs_change.specs.TogetherLaws.{BytesAreChangedTogether, JournalsOfBytesGrowByTheNeeds, OneUndoTakesAllBack};
ghost use Rattle.lfs_change.specs.Laws.{ChangedBytesAreDenoted, ChangedBytesAreEquations, JournalsOfBytesGrowByTheNeed, JournalsOfBytesGrowOnTheKept, UndoneBytesStandAgain};

use lfs_history::{
    commands_push_equations, commands_push_equations_together, journals_grow_by_the_need,
    runs_keep_histories, saved_histories_open, steps_keep_size, undo_is_exact,
};

/// A law: the image and the journal that steps leave denote the history that they leave.
pub fn changed_bytes_are_denoted()
    ensures { ChangedBytesAreDenoted }
{
    runs_keep_histories();
    saved_histories_open();
    steps_keep_size();
}

/// A law: bytes that a command changed are an image that mounts to the command's equation of the tree of the image before,
/// with the same size and limits, and with as many blocks as the command says.
pub fn changed_bytes_are_equations()
    ensures { ChangedBytesAreEquations }
{
    changed_bytes_are_denoted();
    commands_push_equations();
}

/// A law: what a command did is undone byte for byte, by the journal that it left, however many images of the past it keeps.
pub fn undone_bytes_stand_again()
    ensures { UndoneBytesStandAgain }
{
    changed_bytes_are_denoted();
    saved_histories_open();
    undo_is_exact();
}

/// A law: the journal that a command leaves is longer than the one before it by no more than three numbers and, for each block that
/// the command needs on the image's volume and two more, the block's number, its bytes before and its bytes after; than one of version
/// 1 also by two numbers for each change that is kept (`whole`). A journal without bytes counts as one without changes. No more than
/// that is added even to the journal of nothing but the changes that are kept: those that were undone aren't, nor those that the
/// command drops (`kept`).
pub fn journals_of_bytes_grow_by_the_need()
    ensures complete { JournalsOfBytesGrowByTheNeed }
    ensures kept { JournalsOfBytesGrowOnTheKept }
{
    journals_grow_by_the_need();
}

/// A law: bytes that several commands changed as one change are an image that mounts to their equations of the tree of the image before,
/// one after another (`equations`). One undo takes all of it back byte for byte, by the journal that they left (`undone`). That is longer
/// than the one before by no more than three numbers and, for each block that a command needs, and two more each, the block's number, its
/// bytes before and its bytes after; than one of version 1 also by two numbers for each change that is kept (`growth`).
pub fn bytes_are_changed_together()
    ensures equations { BytesAreChangedTogether }
    ensures undone { OneUndoTakesAllBack }
    ensures growth { JournalsOfBytesGrowByTheNeeds }
{
    changed_bytes_are_denoted();
    commands_push_equations_together();
    saved_histories_open();
    undo_is_exact();
    journals_grow_by_the_need();
}
