//! What holds of every change of an image. A function here does nothing: its contract is the law.

ghost use Rattle.lfs_block.specs.PatchLaws.{AppliedAgrees, AppliedBlocks, AppliedChanges, AppliedIsDisk, AppliedRevertsBack, BlockPut, BlockPutOther, ChangedBlocks, ChangedIsDisk, DisksAreTheirBlocks, FlippedIsPatch, FlippedTwice, GrownIsKept, KeptBlocks, KeptIsDisk, PutIsDisk, ResizedBlocks, ResizedIsDisk, ResizedStays, RevertedAgrees, RevertedAppliesAgain, RevertedIsDisk};

/// Law: a block that is put into an image is the image's block of that number, the other blocks stay, and it is an
/// image again.
pub fn put_blocks_stand()
    ensures block { BlockPut }
    ensures others { BlockPutOther }
    ensures disk { PutIsDisk }
{}

/// Law: two images of one size and count that have the same blocks are one.
pub fn images_are_their_blocks()
    ensures { DisksAreTheirBlocks }
{}

/// Law: of an image of which some blocks are changed, the changed blocks hold the new bytes and the others what they
/// held.
pub fn changes_change_their_blocks()
    ensures disk { ChangedIsDisk }
    ensures blocks { ChangedBlocks }
{}

/// Law: an image that is cut or lengthened within the limits of images is an image, its blocks are those that there were,
/// those that are added are erased, and an image of its own count stays.
pub fn resized_images_keep_their_blocks()
    ensures disk { ResizedIsDisk }
    ensures blocks { ResizedBlocks }
    ensures stays { ResizedStays }
{}

/// Law: a patch is one backwards, and is itself when it is turned twice.
pub fn flipped_patches_are_patches()
    ensures patch { FlippedIsPatch }
    ensures twice { FlippedTwice }
{}

/// Law: a patch that is applied leaves an image of the same block size and of the patch's count after, with the patch's new
/// bytes in the blocks that it names and the same bytes in the others.
pub fn applied_patches_change_their_blocks()
    ensures disk { AppliedIsDisk }
    ensures blocks { AppliedBlocks }
{}

/// Law: a patch that keeps the count makes its changes, so that the image has the same count, the patch's new bytes in the
/// blocks that it names and the same bytes in the others.
pub fn kept_counts_change_their_blocks()
    ensures changes { AppliedChanges }
    ensures disk { KeptIsDisk }
    ensures blocks { KeptBlocks }
{}

/// Law: a patch that lengthens an image makes of it what the same changes make of the image that is lengthened already, as a
/// patch that keeps the count.
pub fn grown_images_keep_their_count()
    ensures { GrownIsKept }
{}

/// Law: once a patch is applied, its new bytes stand, and reverting it gives the first image.
pub fn applied_patches_revert()
    ensures agrees { AppliedAgrees }
    ensures back { AppliedRevertsBack }
{}

/// Law: once a patch is reverted, its old bytes stand, and applying it gives the first image.
pub fn reverted_patches_apply_again()
    ensures disk { RevertedIsDisk }
    ensures agrees { RevertedAgrees }
    ensures again { RevertedAppliesAgain }
{}
