//! Laws of steps: each function does nothing but call laws, and its contract is the law.

ghost use Rattle.lfs_step.specs.Histories.{StepsLeaveHistories};
ghost use Rattle.lfs_step.specs.PackedListed.{PackedImagesListTheirRows};
ghost use Rattle.lfs_step.specs.Runs.{RunsGoOn};
ghost use Rattle.lfs_step.specs.TreeLaws.{EqualTreesStay, TreesAreChanged};

use lfs_change::{bytes_are_changed_together, changed_bytes_are_denoted};
use lfs_fs::{images_mount_to_one_tree, paths_are_ordered, rows_are_unique, texts_spell_one_path};
use lfs_history::saved_histories_open;
use lfs_sync::{mounted_rows_are_held, texts_spell_their_commands};

/// A law: the image and the journal that a step leaves denote the history to which it leads from the one that they denoted before. A
/// new image begins one, empty or of rows, and so does one of which all else is forgotten; a question leaves the one that was there;
/// and a change is steps of it.
pub fn steps_leave_histories()
    ensures { StepsLeaveHistories }
{
    changed_bytes_are_denoted();
    saved_histories_open();
}

/// A law: a list of runs of any steps, with blocks of one size, each handed the image and the journal that the one before left,
/// leads from the history that the first image and journal denote to the one that the last denote. A run that is refused leaves
/// the history.
pub fn runs_go_on()
    ensures { RunsGoOn }
{
    steps_leave_histories();
}

/// A law: an image that was packed is listed as the rows that it was packed of: each path with its kind, its size and its attributes,
/// in their order.
pub fn packed_images_list_their_rows()
    ensures { PackedImagesListTheirRows }
{
    paths_are_ordered();
    rows_are_unique();
    images_mount_to_one_tree();
}

/// A law: on an image that mounts to a tree, an accepted change of a whole tree leaves an image that mounts to the tree that the change
/// says (`said`). This is the tree without what was at the path, with a directory and its parents there, with a file and its parents, or
/// with what a folder has. Where that is the tree which was there, the image stays byte for byte; but a file is put all the same
/// (`equal`).
pub fn trees_are_changed_as_said()
    ensures said { TreesAreChanged }
    ensures equal { EqualTreesStay }
{
    texts_spell_one_path();
    images_mount_to_one_tree();
    paths_are_ordered();
    mounted_rows_are_held();
    texts_spell_their_commands();
    bytes_are_changed_together();
}
