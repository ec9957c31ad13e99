//! Laws of what is saved: each function does nothing, and its contract is the law.

ghost use Rattle.lfs_salvage.specs.Apart.{ChainsAreApart, PartsAreInUse};
ghost use Rattle.lfs_salvage.specs.Lost.{LostWordIsNew};
ghost use Rattle.lfs_salvage.specs.Shown.{LostHaveACause, SavedAreShown};

use lfs_file::{blocks_of_chains_differ, files_have_one_chain};

/// What is saved of an entry is a file's, with the bytes that its body says: those in the entry, or the contents of its chain.
pub fn saved_files_are_shown()
    ensures { SavedAreShown }
{
    files_have_one_chain();
}

/// What is lost is a file's, and it has no chain, or a block of it is in use.
pub fn lost_files_have_a_cause()
    ensures { LostHaveACause }
{}

/// The blocks of the chains that are saved of an area differ, none of them was in use before, and all are then, as are those that were.
/// The premise is a table of as many blocks as the disk has.
pub fn saved_chains_are_apart()
    ensures { ChainsAreApart }
{
    blocks_of_chains_differ();
}

/// The blocks of the parts that are found are in use at first.
pub fn parts_are_in_use()
    ensures { PartsAreInUse }
{}

/// No entry of what is found has the name that `lost_word` answers for it.
pub fn lost_words_are_new()
    ensures { LostWordIsNew }
{}
