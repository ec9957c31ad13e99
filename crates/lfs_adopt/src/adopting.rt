//! An image that a device wrote, taken over.

ghost use Rattle.std.specs.Prelude.{◌≡◌, ◌<◌, IfOk, OnOk, length};
ghost use Rattle.lfs_block.specs.Disk.{block_of};
ghost use Rattle.lfs_lower.specs.LaterReading.{later_reading_of};
ghost use Rattle.lfs_settle.specs.Ended.{Ends};
ghost use Rattle.lfs_adopt.specs.Adopted.{IsAdoptedImage};
ghost use Rattle.lfs_adopt.specs.Changed.{changed_blocks};
ghost use Rattle.lfs_adopt.specs.Draft.{drafted};
ghost use Rattle.lfs_adopt.specs.Rewritten.{AreTaken, HasTaken, IsRewrittenImage};

use crate::draft::Draft;
use crate::thread::thread_table;
use crate::tidying::tidy;
use lfs_block::{Blocks, Image, put_blocks_stand};
use lfs_lower::{Rewrite, join};
use lfs_meta::parts_depend_on_their_blocks;
use lfs_settle::{Ended, settle};
use std::alloc::{AllocError, Global};

// ---- the image rewritten

/// A draft of an image that is settled, joined and tidied, and what is ended so. Takes memory.
fn tidied_draft<'a>(alloc: Global, image: &'a Image) -> Result<(Draft<'a>, Ended), AllocError>
    ensures draft { IfOk result (λ made. IsRewrittenImage image.now.disk (drafted made.0)) }
    ensures ended { IfOk result (λ made. Ends (later_reading_of image.now.disk) made.1) }
{
    let mut draft = Draft::of(alloc, image)?;
    let ended = settle(alloc, &mut draft)?;
    join(alloc, &mut draft)?;
    tidy(alloc, &mut draft)?;
    Ok((draft, ended))
}

// ---- blocks taken

/// Takes these bytes for a block of a draft, which stays as it is if it has them already. Memory that is refused changes nothing. Takes
/// memory.
fn take_block(alloc: Global, draft: &mut Draft, number: u32, block: &[u8]) -> Result<(), AllocError>
    requires within { number < (drafted draft.old).count }
    requires complete { length block.now ≡ (drafted draft.old).size }
    ensures base { draft.new.base ≡ draft.old.base }
    ensures taken { OnOk result (HasTaken number block.now (drafted draft.old) (drafted draft.new)) }
{
    put_blocks_stand();
    let _fits_the_limits = draft.size();
    if draft.block(number) == block {
        return Ok(());
    }
    draft.rewrite(alloc, number, block)?;
    let _fits_them_still = draft.size();
    Ok(())
}

/// A draft of an image with the blocks of another one: those with a flag. Takes memory.
fn taken<'a, B: Blocks>(
    alloc: Global,
    image: &'a Image,
    other: &B,
    flags: &[bool],
) -> Result<Draft<'a>, AllocError>
    requires size { (B.disk other.now).size ≡ image.now.disk.size }
    requires count { (B.disk other.now).count ≡ image.now.disk.count }
    requires flags { length flags.now ≡ image.now.disk.count }
    ensures base { IfOk result (λ draft. draft.base ≡ image.now.disk) }
    ensures taken { IfOk result (λ draft. AreTaken image.now.disk (B.disk other.now) (drafted draft) flags.now image.now.disk.count) }
{
    let _fits_the_limits = image.size();
    let _fits_too = other.size();
    let mut draft = Draft::of(alloc, image)?;
    for number in 0..image.count() {
        if flags[number as usize] {
            take_block(alloc, &mut draft, number, other.block(number))?;
        }
    }
    Ok(draft)
}

// ---- taken over

/// An image that is taken over, and what is told of that.
#[derive(Drop)]
pub struct TakenOver<'a> {
    /// The image, as a draft of the old one.
    pub draft: Draft<'a>,
    /// What is ended of what the device left unfinished.
    pub ended: Ended,
    /// The numbers of the blocks that differ from the old image, in order.
    pub changed: Vec<u32>,
}

/// The image that a device wrote, taken over: it is of version 2.0, with one superblock, and nothing is left unfinished in it. No later
/// part of a directory is empty. Only blocks of pairs along its thread differ from the old image: the live one keeps its place and its
/// revision, and the one beside it is erased. A pair of which both versions read the same, and which holds its part already, stays as it
/// is. Takes memory.
pub fn adopted<'a>(alloc: Global, image: &'a Image) -> Result<TakenOver<'a>, AllocError>
    ensures base { IfOk result (λ taken. taken.draft.base ≡ image.now.disk) }
    ensures image { IfOk result (λ taken. IsAdoptedImage image.now.disk (drafted taken.draft)) }
    ensures ended { IfOk result (λ taken. Ends (later_reading_of image.now.disk) taken.ended) }
    ensures changed { IfOk result (λ taken. taken.changed.items ≡ changed_blocks image.now.disk (drafted taken.draft)) }
{
    parts_depend_on_their_blocks();
    let _fits_the_limits = image.size();
    let (rewritten, ended) = tidied_draft(alloc, image)?;
    let flags = thread_table(alloc, &rewritten)?;
    let draft = taken(alloc, image, &rewritten, &flags)?;
    let changed = draft.changed(alloc)?;
    Ok(TakenOver {
        draft,
        ended,
        changed,
    })
}
