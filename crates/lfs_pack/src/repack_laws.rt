//! Laws of rows that are packed again: each function does nothing but call laws, and its contract is the law.

ghost use Rattle.lfs_pack.specs.RepackLaws.{PackedImagesHoldTheTree, RowsAreOfTheirTexts, RowsArePackable, RowsPackToTheirTree};

use lfs_fs::{outlines_are_sound, paths_are_ordered, rows_show_the_tree};

/// A law: what the rows of a mounted image show can be packed, the map of it is the image's tree, and an image that is packed of it holds a
/// volume of that tree.
pub fn rows_pack_to_their_tree()
    ensures tree { RowsPackToTheirTree }
    ensures held { PackedImagesHoldTheTree }
    ensures packable { RowsArePackable }
{
    rows_show_the_tree();
    paths_are_ordered();
    outlines_are_sound();
}

/// A law: rows that have the texts of what can be packed, with its bytes and attributes, are rows of it.
pub fn rows_are_of_their_texts()
    ensures { RowsAreOfTheirTexts }
{}
