//! What holds of patches that are made one after another, as one patch. A function here does nothing but call laws: its contract is the
//! law.

ghost use Rattle.lfs_journal.specs.JointLaws.{ComposedApplies, ComposedIsShort, ComposedNames, ComposedReverts, OneMoreTogether, TogetherApplies, TogetherIsShort, TogetherReverts};

use lfs_block::{
    applied_patches_change_their_blocks, applied_patches_revert, images_are_their_blocks,
    reverted_patches_apply_again,
};

/// Law: two patches applied as one are the two applied one after the other (`two`), and so are any that are made one after another
/// (`all`).
pub fn composed_patches_apply()
    ensures two { ComposedApplies }
    ensures all { TogetherApplies }
{
    applied_patches_change_their_blocks();
    images_are_their_blocks();
}

/// Law: two patches reverted as one are the two reverted, the second first (`two`), and so are any that are taken back one after another
/// (`all`).
pub fn composed_patches_revert()
    ensures two { ComposedReverts }
    ensures all { TogetherReverts }
{
    composed_patches_apply();
    applied_patches_revert();
    reverted_patches_apply_again();
}

/// Law: one patch of two names no more blocks than the two do (`two`), and so does one of any (`all`).
pub fn joints_are_short()
    ensures two { ComposedIsShort }
    ensures all { TogetherIsShort }
{}

/// Law: a block that one patch of two names is named by one of them.
pub fn composed_patches_name_no_others()
    ensures { ComposedNames }
{}

/// Law: one patch of several and one more is that of the several, composed with the one more.
pub fn joints_go_on()
    ensures { OneMoreTogether }
{}
