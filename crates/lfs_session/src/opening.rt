//! What is opened of a journal on an image.

ghost use Rattle.std.specs.Prelude.{◌≡◌, ◌≢◌, ◌≤◌, ◌↔◌, ◌++◌, IsTrue, IfOk, IfErr, length, take, drop, reverse};
ghost use Rattle.std.specs.List.{AllByRecursion};
ghost use Rattle.lfs_block.specs.Disk.{IsDisk, erased_block};
ghost use Rattle.lfs_block.specs.Patch.{IsGrowth};
ghost use Rattle.lfs_block.specs.declared.mount_fault.MountFault.TheVariants.{Memory};
ghost use Rattle.lfs_fs.specs.Mounted.{IsOutlineOf};
ghost use Rattle.lfs_history.specs.declared.open_fault.OpenFault.TheVariants.{JournalImage, Mount};
ghost use Rattle.lfs_history.specs.History.{GoesBack, GoesForward, IsMounted, past_of, future_of};
ghost use Rattle.lfs_history.specs.Opening.{RefusesOpening};
ghost use Rattle.lfs_session.specs.Known.{HasRoom};
ghost use Rattle.lfs_session.specs.Opened.{DenotesChanges, OpensParts, RefusesMounts};

use crate::agreeing::{goes_back, goes_on};
use crate::mounting::{mounts_back, mounts_on};
use crate::reserving::reserve_for;
use lfs_block::{Blocks, Image, MountFault, Patch};
use lfs_fs::{Outline, mount};
use lfs_history::OpenFault;
use lfs_journal::Journal;
use std::alloc::Global;

/// The changes of an image, as the bytes of a journal denote them.
#[derive(Drop)]
pub struct Changes {
    /// The image's outline.
    pub outline: Outline,
    /// The changes: those that are done, in the order in which they were made, then those that are undone, in the order in
    /// which they are made again.
    pub patches: Vec<Patch>,
    /// The number of changes that are done.
    pub done: usize,
}

/// What a session keeps beside its image.
#[derive(Drop)]
pub(crate) struct Opened {
    pub(crate) outline: Outline,
    pub(crate) patches: Vec<Patch>,
    pub(crate) done: usize,
}

/// Whether changes, of which so many are done, agree with an image, backwards and onwards. The image stands again as it was.
fn agree(image: &mut Image, patches: &[Patch], done: usize) -> bool
    requires disk { IsDisk image.old.disk }
    requires within { done ≤ length patches.now }
    requires patches { AllByRecursion IsGrowth patches.now }
    requires room { HasRoom image.old.room patches.now }
    ensures agrees { IsTrue result ↔ (GoesBack (reverse (take done patches.now)) image.old.disk × GoesForward (drop done patches.now) image.old.disk) }
    ensures disk { image.new.disk ≡ image.old.disk }
    ensures room { image.new.room ≡ image.old.room }
{
    let (made, undone) = patches.split_at(done);
    goes_back(image, made) && goes_on(image, undone)
}

/// An erased block of this size.
fn erased_block(alloc: Global, size: u32) -> Result<Vec<u8>, OpenFault>
    ensures block { IfOk result (λ block. block.items ≡ erased_block size) }
    ensures memory { IfErr result (λ fault. fault ≡ Mount Memory) }
{
    match vec![in alloc; 0xff; size as usize] {
        Ok(block) => Ok(block),
        Err(_) => Err(OpenFault::Mount(MountFault::Memory)),
    }
}

/// Whether each other image of the changes, of which so many are done, mounts, those before first. The image stands again as it
/// was.
fn others_mount(
    alloc: Global,
    image: &mut Image,
    patches: &[Patch],
    done: usize,
) -> Result<(), OpenFault>
    requires disk { IsDisk image.old.disk }
    requires within { done ≤ length patches.now }
    requires agree { GoesBack (reverse (take done patches.now)) image.old.disk × GoesForward (drop done patches.now) image.old.disk }
    requires room { HasRoom image.old.room patches.now }
    ensures past { IfOk result (λ _. AllByRecursion IsMounted (past_of (reverse (take done patches.now)) image.old.disk)) }
    ensures future { IfOk result (λ _. AllByRecursion IsMounted (future_of (drop done patches.now) image.old.disk)) }
    ensures refused { IfErr result (λ fault. RefusesMounts fault (past_of (reverse (take done patches.now)) image.old.disk ++ future_of (drop done patches.now) image.old.disk)) }
    ensures disk { image.new.disk ≡ image.old.disk }
    ensures room { image.new.room ≡ image.old.room }
{
    let erased = erased_block(alloc, image.size())?;
    let (made, undone) = patches.split_at(done);
    mounts_back(alloc, image, None, made, &erased)?;
    mounts_on(alloc, image, None, undone, &erased)
}

/// The changes that the bytes of a journal denote on an image, which stands again as it was, with room for each image of the
/// history; whether the others mount isn't asked, so that `JournalImage` never comes. A refusal says the first of these that holds:
/// the image has a cause for which it does not mount; `JournalFormat` where no journal is spelled so; `JournalMismatch` where it
/// denotes no history of the image. Want of memory is told as the mount's.
pub fn read_changes(alloc: Global, image: &mut Image, journal: &[u8]) -> Result<Changes, OpenFault>
    ensures read { IfOk result (λ changes. DenotesChanges image.old.disk journal.now changes.patches.items changes.done) }
    ensures outline { IfOk result (λ changes. IsOutlineOf image.old.disk changes.outline) }
    ensures room { IfOk result (λ changes. HasRoom image.new.room changes.patches.items) }
    ensures refused { IfErr result (λ fault. RefusesOpening fault image.old.disk journal.now) }
    ensures unasked { IfErr result (λ fault. fault ≢ JournalImage) }
    ensures disk { image.new.disk ≡ image.old.disk }
{
    let outline = mount(alloc, image)?.into_outline();
    let journal = Journal::read(alloc, journal)?;
    if journal.size() != image.size() || journal.count() != image.count() {
        return Err(OpenFault::JournalMismatch);
    }
    let (patches, done) = journal.into_parts();
    if !reserve_for(image, &patches) {
        return Err(OpenFault::Mount(MountFault::Memory));
    }
    if !agree(image, &patches, done) {
        return Err(OpenFault::JournalMismatch);
    }
    Ok(Changes {
        outline,
        patches,
        done,
    })
}

/// What a session keeps of an image and the bytes of its journal. The image stands again as it was, with room for each image
/// of the history.
pub(crate) fn read_history(
    alloc: Global,
    image: &mut Image,
    journal: &[u8],
) -> Result<Opened, OpenFault>
    ensures opened { IfOk result (λ o. OpensParts image.new journal.now o.outline o.patches.items o.done) }
    ensures refused { IfErr result (λ fault. RefusesOpening fault image.old.disk journal.now) }
    ensures disk { image.new.disk ≡ image.old.disk }
{
    let Changes {
        outline,
        patches,
        done,
    } = read_changes(alloc, image, journal)?;
    others_mount(alloc, image, &patches, done)?;
    Ok(Opened {
        outline,
        patches,
        done,
    })
}
