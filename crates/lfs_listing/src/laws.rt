//! Laws of what goes out: each function does nothing but call laws, and its contract is the law.

ghost use Rattle.lfs_listing.specs.BlockUses.{UntakenAreFree, UsersAreUses};
ghost use Rattle.lfs_listing.specs.Trees.{DifferencesAreEmptyOfEqualTrees};

use lfs_fs::{
    images_mount_to_one_tree, outlines_are_sound, paths_are_ordered, rows_are_unique,
    rows_show_the_tree,
};

/// A law: a block of a mounted image has no user just where nothing uses it, and there are as many of these blocks as free ones.
pub fn users_are_uses()
    ensures users { UsersAreUses }
    ensures free { UntakenAreFree }
{
    outlines_are_sound();
}

/// A law: nothing differs between two images that mount if and only if their trees have the same at every path: a directory or a file
/// with the same bytes, and the same attributes.
pub fn differences_show_trees()
    ensures { DifferencesAreEmptyOfEqualTrees }
{
    paths_are_ordered();
    rows_are_unique();
    rows_show_the_tree();
    images_mount_to_one_tree();
}
