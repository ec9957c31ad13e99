//! Whether changes agree with an image, one after another.

ghost use Rattle.std.specs.Prelude.{◌≡◌, ◌↔◌, IsTrue, reverse};
ghost use Rattle.std.specs.List.{AllByRecursion};
ghost use Rattle.lfs_block.specs.Disk.{IsDisk};
ghost use Rattle.lfs_block.specs.Patch.{IsGrowth};
ghost use Rattle.lfs_history.specs.History.{GoesBack, GoesForward};
ghost use Rattle.lfs_session.specs.Known.{HasRoom};

use lfs_block::{
    Image, Patch, applied_patches_change_their_blocks, applied_patches_revert,
    reverted_patches_apply_again,
};

/// Whether each change can be taken back from the image that it made, the last one first. The image goes back with them,
/// and stands again as it was.
pub(crate) fn goes_back(image: &mut Image, patches: &[Patch]) -> bool
    requires disk { IsDisk image.old.disk }
    requires patches { AllByRecursion IsGrowth patches.now }
    requires room { HasRoom image.old.room patches.now }
    ensures agrees { IsTrue result ↔ GoesBack (reverse patches.now) image.old.disk }
    ensures disk { image.new.disk ≡ image.old.disk }
    ensures room { image.new.room ≡ image.old.room }
{
    reverted_patches_apply_again();
    let Some((last, earlier)) = patches.split_last() else {
        return true;
    };
    if !last.agrees_new(image) {
        return false;
    }
    last.revert(image);
    let agrees = goes_back(image, earlier);
    last.apply(image);
    agrees
}

/// Whether each change can be made in the image that comes before it, the first one first. The image goes on with them, and
/// stands again as it was.
pub(crate) fn goes_on(image: &mut Image, patches: &[Patch]) -> bool
    requires disk { IsDisk image.old.disk }
    requires patches { AllByRecursion IsGrowth patches.now }
    requires room { HasRoom image.old.room patches.now }
    ensures agrees { IsTrue result ↔ GoesForward patches.now image.old.disk }
    ensures disk { image.new.disk ≡ image.old.disk }
    ensures room { image.new.room ≡ image.old.room }
{
    applied_patches_change_their_blocks();
    applied_patches_revert();
    let Some((first, later)) = patches.split_first() else {
        return true;
    };
    if !first.agrees_old(image) {
        return false;
    }
    first.apply(image);
    let agrees = goes_on(image, later);
    first.revert(image);
    agrees
}
