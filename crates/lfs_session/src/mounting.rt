//! Whether the other images of a history mount.

ghost use Rattle.std.specs.Prelude.{◌≡◌, IfOk, IfErr, IfSome, reverse};
ghost use Rattle.std.specs.List.{AllByRecursion};
ghost use Rattle.lfs_block.specs.Disk.{IsDisk, erased_block};
ghost use Rattle.lfs_history.specs.History.{GoesBack, GoesForward, IsMounted, past_of, future_of};
ghost use Rattle.lfs_fs.specs.Mounted.{IsOutlineOf};
ghost use Rattle.lfs_law.specs.WrittenLinks.{changed_blocks};
ghost use Rattle.lfs_session.specs.Beside.{IsBeside};
ghost use Rattle.lfs_session.specs.Known.{HasRoom};
ghost use Rattle.lfs_session.specs.Opened.{RefusesMount, RefusesMounts};

use lfs_block::{
    Blocks, Image, MountFault, Overlay, Patch, Record, applied_patches_change_their_blocks,
    applied_patches_revert, flipped_patches_are_patches, kept_counts_change_their_blocks,
    reverted_patches_apply_again,
};
use lfs_fs::{Outline, mount, reread};
use lfs_history::OpenFault;
use std::alloc::{AllocError, Global};

/// The numbers of the blocks that are changed. Takes memory.
fn changed_blocks(alloc: Global, records: &[Record]) -> Result<Vec<u32>, AllocError>
    ensures { IfOk result (λ numbers. numbers.items ≡ changed_blocks records.now) }
{
    let mut numbers = Vec::new(alloc);
    'each: for record in records {
        numbers.push(record.number)?;
    }
    Ok(numbers)
}

/// The outline of an image on one side of a patch, of which that of the other side may be known. `None` where it isn't known, where
/// the patch changes the number of blocks, or where it isn't found by what the patch changes; whether the image mounts isn't said then.
fn outline_beside<B: Blocks>(
    alloc: Global,
    blocks: &B,
    known: Option<Outline>,
    patch: &Patch,
) -> Option<Outline>
    requires { IfSome known (λ outline. IsBeside patch.now (B.disk blocks.now) outline) }
    ensures { IfSome result (λ outline. IsOutlineOf (B.disk blocks.now) outline) }
{
    let outline = known?;
    if patch.after() != patch.before() {
        return None;
    }
    let changed = changed_blocks(alloc, patch.records()).ok()?;
    reread(alloc, blocks, outline, &changed)
}

/// The outline of an image of a history, on one side of a patch, of which that of the other side may be known; `JournalImage` where the
/// image has a cause, and want of memory.
fn mounted_outline<B: Blocks>(
    alloc: Global,
    blocks: &B,
    known: Option<Outline>,
    patch: &Patch,
) -> Result<Outline, OpenFault>
    requires { IfSome known (λ outline. IsBeside patch.now (B.disk blocks.now) outline) }
    ensures mounted { IfOk result (λ outline. IsOutlineOf (B.disk blocks.now) outline) }
    ensures refused { IfErr result (λ fault. RefusesMount fault (B.disk blocks.now)) }
{
    if let Some(outline) = outline_beside(alloc, blocks, known, patch) {
        return Ok(outline);
    }
    match mount(alloc, blocks) {
        Ok(mounted) => Ok(mounted.into_outline()),
        Err(MountFault::Memory) => Err(OpenFault::Mount(MountFault::Memory)),
        Err(_) => Err(OpenFault::JournalImage),
    }
}

/// Whether each image before changes mounts, the nearest first. The image goes back with them, and stands again as it was. Its
/// outline may be known. `erased` is an erased block.
pub(crate) fn mounts_back(
    alloc: Global,
    image: &mut Image,
    known: Option<Outline>,
    patches: &[Patch],
    erased: &[u8],
) -> Result<(), OpenFault>
    requires disk { IsDisk image.old.disk }
    requires known { IfSome known (λ outline. IsOutlineOf image.old.disk outline) }
    requires agrees { GoesBack (reverse patches.now) image.old.disk }
    requires room { HasRoom image.old.room patches.now }
    requires erased { erased.now ≡ erased_block image.old.disk.size }
    ensures mounted { IfOk result (λ _. AllByRecursion IsMounted (past_of (reverse patches.now) image.old.disk)) }
    ensures refused { IfErr result (λ fault. RefusesMounts fault (past_of (reverse patches.now) image.old.disk)) }
    ensures disk { image.new.disk ≡ image.old.disk }
    ensures room { image.new.room ≡ image.old.room }
{
    reverted_patches_apply_again();
    flipped_patches_are_patches();
    kept_counts_change_their_blocks();
    let Some((last, earlier)) = patches.split_last() else {
        return Ok(());
    };
    let outline = mounted_outline(alloc, &Overlay::before(image, last, erased), known, last)?;
    last.revert(image);
    let mounted = mounts_back(alloc, image, Some(outline), earlier, erased);
    last.apply(image);
    mounted
}

/// Whether each image behind changes mounts, the nearest first. The image goes on with them, and stands again as it was. Its
/// outline may be known. `erased` is an erased block.
pub(crate) fn mounts_on(
    alloc: Global,
    image: &mut Image,
    known: Option<Outline>,
    patches: &[Patch],
    erased: &[u8],
) -> Result<(), OpenFault>
    requires disk { IsDisk image.old.disk }
    requires known { IfSome known (λ outline. IsOutlineOf image.old.disk outline) }
    requires agrees { GoesForward patches.now image.old.disk }
    requires room { HasRoom image.old.room patches.now }
    requires erased { erased.now ≡ erased_block image.old.disk.size }
    ensures mounted { IfOk result (λ _. AllByRecursion IsMounted (future_of patches.now image.old.disk)) }
    ensures refused { IfErr result (λ fault. RefusesMounts fault (future_of patches.now image.old.disk)) }
    ensures disk { image.new.disk ≡ image.old.disk }
    ensures room { image.new.room ≡ image.old.room }
{
    applied_patches_change_their_blocks();
    applied_patches_revert();
    kept_counts_change_their_blocks();
    let Some((first, later)) = patches.split_first() else {
        return Ok(());
    };
    let outline = mounted_outline(alloc, &Overlay::after(image, first, erased), known, first)?;
    first.apply(image);
    let mounted = mounts_on(alloc, image, Some(outline), later, erased);
    first.revert(image);
    mounted
}
