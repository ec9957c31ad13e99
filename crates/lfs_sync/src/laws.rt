//! Laws of whole trees in one change: each function does nothing but call laws, and its contract is the law.

ghost use Rattle.lfs_sync.specs.SyncLaws.{EqualNeedsNothing, FoldersAreWanted, MadeIsWithParents, PutIsWithFile, RemovedIsWithout};
ghost use Rattle.lfs_sync.specs.SyncLaws.{RowsAreHeld, SyncedIsTheFolder, TextsSpellTheirCommands, TreesAreRooted};

use lfs_fs::{paths_are_ordered, rows_show_the_tree, texts_spell_one_path};

/// A law: the commands by which a part of a tree becomes a folder make the tree with what the folder has there, and attributes stay
/// where the kind does. Where both show the same, attributes aside, there is no command.
pub fn parts_become_folders()
    ensures becomes { SyncedIsTheFolder }
    ensures equal { EqualNeedsNothing }
{
    paths_are_ordered();
}

/// A law: the commands by which a part of a tree is removed leave the tree without what stands at its path and below.
pub fn parts_are_removed()
    ensures { RemovedIsWithout }
{}

/// A law: the rows of a mounted image at a path and below are those of its tree, in the order of paths.
pub fn mounted_rows_are_held()
    ensures { RowsAreHeld }
{
    rows_show_the_tree();
}

/// A law: the commands by which a directory is made with its parents leave a directory at each prefix of its path where nothing was, and
/// all else as it was. In a volume's tree each path but the root's is in a directory.
pub fn directories_are_made_with_parents()
    ensures made { MadeIsWithParents }
    ensures rooted { TreesAreRooted }
{}

/// A law: the commands by which a file is put with its parents leave the file at its path, a directory at each prefix of it where
/// nothing was, and all else as it was.
pub fn files_are_put_with_parents()
    ensures { PutIsWithFile }
{}

/// A law: the texts of commands whose paths are made of names spell these commands, and no others.
pub fn texts_spell_their_commands()
    ensures { TextsSpellTheirCommands }
{
    texts_spell_one_path();
}

/// A law: the rows of a host's folder, as it is read, are those that a part of a tree becomes.
pub fn folders_are_wanted()
    ensures { FoldersAreWanted }
{
    paths_are_ordered();
}
