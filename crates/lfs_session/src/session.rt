//! An image with its changes.

use crate::carried::{Carried, carried_out};
use crate::joining::{Unjoined, joined};
use crate::keeping::keep_latest;
use crate::known::{Known, known_by};
use crate::opening::{Opened, read_history};
use crate::refused::Refused;
use crate::replacing::replace_from;
use crate::unmounted::Unmounted;
use lfs_block::{
    Blocks, Image, Patch, applied_patches_change_their_blocks, applied_patches_revert,
    reverted_patches_apply_again,
};
use lfs_edit::{Asked, Refusal};
use lfs_fs::{Outline, mount};
use lfs_history::{StepFault, commands_are_made_together};
use lfs_journal::{Journal, MOST_CHANGES, write_journal};
use lfs_law::cuts_follow;
use std::alloc::Global;
use std::marker::Model;
use std::mem::forget;

/// An image with its changes, up to 1,000, each of which can be taken back exactly, and made again. Its meaning is a
/// `History`: each image that was and can be again, all of which mount. Between commands it keeps the image's outline and the table
/// of the blocks that it uses, which are read again only behind a change that was taken back or made again, and where memory was
/// wanting. It keeps room for each of these images, so that taking changes back and making them again takes no memory.
#[derive(Drop)]
pub struct Session {
    image: Image,
    known: Option<Known>,
    patches: Vec<Patch>,
    done: usize,
}

impl Model for Session {
    ghost use Rattle.lfs_history.specs.History.{History, history_at};
    ghost use Rattle.lfs_session.specs.Known.{IsSession};

    ghost Value = { History };

    ghost view = { λ s. history_at s.image.disk s.patches.items s.done };

    ghost invariant = { λ s. IsSession s.image s.known s.patches.items s.done };
}

impl Session {
    ghost use Rattle.std.specs.Prelude.{◌≡◌, ◌≢◌, [], length, map, None, Some, IfOk, IfErr, IfSome, OnOk, OnErr};
    ghost use Rattle.lfs_fs.specs.Cause.{HasCause};
    ghost use Rattle.lfs_fs.specs.Mounted.{IsOutlineOf};
    ghost use Rattle.lfs_journal.specs.Book.{journal_bytes};
    ghost use Rattle.lfs_command.specs.AskedFor.{asked_for};
    ghost use Rattle.lfs_history.specs.declared.step_fault.StepFault.TheVariants.{NothingToUndo, NothingToRedo};
    ghost use Rattle.lfs_history.specs.History.{IsHistory, fresh_history};
    ghost use Rattle.lfs_history.specs.Moves.{Undoes, Redoes, Forgets};
    ghost use Rattle.lfs_history.specs.Opening.{Opens, RefusesOpening, journal_of};
    ghost use Rattle.lfs_history.specs.Taking.{Does, Takes, Do, MayKeep, HasPlace, Together};
    ghost use Rattle.lfs_history.specs.Together.{DoesTogether};

    /// A session of an image that nothing was done to. A refusal hands the image back: the image has the cause that the
    /// fault names, and `Memory` says only that a growth was refused.
    pub fn fresh(alloc: Global, image: Image) -> Result<Session, Unmounted>
        ensures fresh { IfOk result (λ session. session ≡ fresh_history image.disk) }
        ensures history { IfOk result (λ session. IsHistory session) }
        ensures cause { IfErr result (λ unmounted. HasCause image.disk unmounted.fault) }
        ensures handed_back { IfErr result (λ unmounted. unmounted.image ≡ image) }
    {
        match mount(alloc, &image) {
            Ok(mounted) => {
                let known = known_by(alloc, mounted.into_outline());
                Ok(Session {
                    image,
                    known,
                    patches: Vec::new(alloc),
                    done: 0,
                })
            }
            Err(fault) => Err(Unmounted { fault, image }),
        }
    }

    /// The session of an image whose journal stands in the bytes: its history is the one that they denote on the image. A
    /// refusal hands the image back, byte for byte, and says the first of these that holds: the image has a cause for which it
    /// does not mount; `JournalFormat` where no journal is spelled so; `JournalMismatch` where it denotes no history of the
    /// image; `JournalImage` where another image of the history does not mount. Want of memory is told as the mount's.
    pub fn open(alloc: Global, image: Image, journal: &[u8]) -> Result<Session, Refused>
        ensures opened { IfOk result (λ session. Opens image.disk journal.now session) }
        ensures refused { IfErr result (λ refused. RefusesOpening refused.fault image.disk journal.now) }
        ensures handed_back { IfErr result (λ refused. refused.image.disk ≡ image.disk) }
    {
        let mut image = image;
        match read_history(alloc, &mut image, journal) {
            Ok(
                Opened {
                    outline,
                    patches,
                    done,
                },
            ) => {
                let known = known_by(alloc, outline);
                Ok(Session {
                    image,
                    known,
                    patches,
                    done,
                })
            }
            Err(fault) => Err(Refused { fault, image }),
        }
    }

    /// The bytes of the journal: of the image's size and count, with the changes that are done and those that are undone.
    /// `None` where memory is refused.
    pub fn journal_bytes(&self, alloc: Global) -> Option<Vec<u8>>
        ensures { IfSome result (λ bytes. bytes.items ≡ journal_bytes (journal_of self.now)) }
    {
        write_journal(
            alloc,
            self.image.size(),
            self.image.count(),
            &self.patches,
            self.done,
        )
    }

    /// The image as it is now.
    pub fn image(&self) -> &Image
        ensures image { result.now.disk ≡ self.now.present }
        ensures history { IsHistory self.now }
    {
        &self.image
    }

    /// The outline of the image as it is now, if it is known: after a mount or a command for which no memory was refused. A clause says of
    /// which image it is. None says when it is known, since any growth of memory may be refused.
    pub fn outline(&self) -> Option<&Outline>
        ensures { IfSome result (λ outline. IsOutlineOf self.now.present outline.now) }
    {
        match &self.known {
            Some(known) => Some(&known.outline),
            None => None,
        }
    }

    /// The image as it is now, without its changes.
    pub fn into_image(self) -> Image
        ensures { result.disk ≡ self.present }
    {
        let (image, _) = self.into_parts();
        image
    }

    /// The image as it is now, and the journal: of the image's size and count, with the changes that are done and those that are undone.
    /// The memory of an outline isn't given back, name by name: a run is at its end.
    pub fn into_parts(self) -> (Image, Journal)
        ensures image { result.0.disk ≡ self.present }
        ensures journal { result.1 ≡ journal_of self }
    {
        let Session {
            image,
            known,
            patches,
            done,
        } = self;
        let journal = Journal::new(image.size(), image.count(), patches, done);
        forget(known);
        (image, journal)
    }

    /// Carries a command out, as a change that can be taken back; what was undone is dropped. Any refusal leaves all as it was:
    /// `JournalFull` where 1,000 changes were made, then what `carry_out` refuses, or `Memory`.
    pub fn command(&mut self, alloc: Global, command: &Asked<'_>) -> Result<(), StepFault>
        ensures done { OnOk result (Does (asked_for command.now) None self.old self.new) }
        ensures refused { IfErr result (λ fault. Takes (Do (asked_for command.now) None) (Some fault) self.old self.new) }
        ensures unchanged { OnErr result (self.new ≡ self.old) }
    {
        if self.done >= MOST_CHANGES as usize {
            return Err(StepFault::JournalFull);
        }
        self.push(alloc, command, None)
    }

    /// Carries a command out, as a change that can be taken back; what was undone is dropped, and then all images of the past but the
    /// nearest, of which `keep` are kept. Any refusal leaves all as it was: what `carry_out` refuses, or `Memory`. Dropping takes no
    /// memory.
    pub fn command_keep(
        &mut self,
        alloc: Global,
        command: &Asked<'_>,
        keep: u32,
    ) -> Result<(), StepFault>
        requires { MayKeep (Some keep) }
        ensures done { OnOk result (Does (asked_for command.now) (Some keep) self.old self.new) }
        ensures refused { IfErr result (λ fault. Takes (Do (asked_for command.now) (Some keep)) (Some fault) self.old self.new) }
        ensures unchanged { OnErr result (self.new ≡ self.old) }
    {
        self.push(alloc, command, Some(keep))
    }

    /// Carries a command out where there is room for a change, and then keeps as many images of the past as are said. Room for
    /// the image that it leaves is made before anything changes.
    fn push(
        &mut self,
        alloc: Global,
        command: &Asked<'_>,
        keep: Option<u32>,
    ) -> Result<(), StepFault>
        requires { HasPlace keep self.old }
        ensures done { OnOk result (Does (asked_for command.now) keep self.old self.new) }
        ensures refused { IfErr result (λ fault. Takes (Do (asked_for command.now) keep) (Some fault) self.old self.new) }
        ensures unchanged { OnErr result (self.new ≡ self.old) }
    {
        applied_patches_change_their_blocks();
        applied_patches_revert();
        cuts_follow();
        let Carried { patch, known } = carried_out(alloc, &self.image, &mut self.known, command)?;
        if !self.image.reserve(patch.after()) {
            return Err(StepFault::Refused(Refusal::Memory));
        }
        replace_from(&mut self.patches, self.done, patch)?;
        self.patches[self.done].apply(&mut self.image);
        self.known = Some(known);
        self.done = keep_latest(&mut self.patches, keep);
        Ok(())
    }

    /// Carries commands out, one after another, as one change that can be taken back; what was undone is dropped, and then all images of
    /// the past but the nearest, as many as are said. No command is no change. Any refusal leaves all as it was: `JournalFull` where 1,000
    /// changes were made and all are kept, then the first command that is refused, with its place.
    pub fn together(
        &mut self,
        alloc: Global,
        commands: &[Asked<'_>],
        keep: Option<u32>,
    ) -> Result<(), StepFault>
        requires { MayKeep keep }
        ensures done { OnOk result (DoesTogether (map asked_for commands.now) keep self.old self.new) }
        ensures refused { IfErr result (λ fault. Takes (Together (map asked_for commands.now) keep) (Some fault) self.old self.new) }
        ensures unchanged { OnErr result (self.new ≡ self.old) }
    {
        if commands.is_empty() {
            return Ok(());
        }
        if keep.is_none() && self.done >= MOST_CHANGES as usize {
            return Err(StepFault::JournalFull);
        }
        self.push_all(alloc, commands, keep)
    }

    /// Carries commands out, one at least, where there is room for a change, and then keeps as many images of the past as are said. Room
    /// for the change is made before anything changes.
    fn push_all(
        &mut self,
        alloc: Global,
        commands: &[Asked<'_>],
        keep: Option<u32>,
    ) -> Result<(), StepFault>
        requires some { commands.now ≢ [] }
        requires place { HasPlace keep self.old }
        ensures done { OnOk result (DoesTogether (map asked_for commands.now) keep self.old self.new) }
        ensures refused { IfErr result (λ fault. Takes (Together (map asked_for commands.now) keep) (Some fault) self.old self.new) }
        ensures unchanged { OnErr result (self.new ≡ self.old) }
    {
        applied_patches_change_their_blocks();
        applied_patches_revert();
        commands_are_made_together();
        if self.patches.reserve(1).is_err() {
            return Err(StepFault::RefusedAt {
                at: 0,
                refusal: Refusal::Memory,
            });
        }
        match joined(alloc, &mut self.image, &mut self.known, commands) {
            Ok(Some(patch)) => {
                prove!(self.image.count() <= self.image.room());
                let put = replace_from(&mut self.patches, self.done, patch);
                prove!(put.is_ok());
                self.done = keep_latest(&mut self.patches, keep);
                Ok(())
            }
            Ok(None) => Ok(()),
            Err(Unjoined { at, refusal }) => Err(StepFault::RefusedAt { at, refusal }),
        }
    }

    /// How many changes can be taken back.
    pub(crate) fn undoable(&self) -> usize
        ensures { result ≡ length self.now.past }
    {
        self.done
    }

    /// How many changes can be made again.
    pub(crate) fn redoable(&self) -> usize
        ensures { result ≡ length self.now.future }
    {
        self.patches.len() - self.done
    }

    /// Takes the latest change back. `NothingToUndo` where none was made that isn't undone, which leaves all as it was.
    pub fn undo(&mut self) -> Result<(), StepFault>
        ensures done { OnOk result (Undoes self.old self.new) }
        ensures refused { IfErr result (λ fault. (fault ≡ NothingToUndo) × (self.old.past ≡ []) × (self.new ≡ self.old)) }
    {
        reverted_patches_apply_again();
        if self.done == 0 {
            return Err(StepFault::NothingToUndo);
        }
        self.patches[self.done - 1].revert(&mut self.image);
        self.known = None;
        self.done -= 1;
        Ok(())
    }

    /// Makes again the latest change that was undone. `NothingToRedo` where there is none, which leaves all as it was.
    pub fn redo(&mut self) -> Result<(), StepFault>
        ensures done { OnOk result (Redoes self.old self.new) }
        ensures refused { IfErr result (λ fault. (fault ≡ NothingToRedo) × (self.old.future ≡ []) × (self.new ≡ self.old)) }
    {
        applied_patches_change_their_blocks();
        applied_patches_revert();
        if self.done == self.patches.len() {
            return Err(StepFault::NothingToRedo);
        }
        self.patches[self.done].apply(&mut self.image);
        self.known = None;
        self.done += 1;
        Ok(())
    }

    /// Keeps the image alone: its changes can no longer be taken back, nor made again.
    pub fn forget(&mut self)
        ensures { Forgets self.old self.new }
    {
        self.patches.clear();
        self.done = 0;
    }
}
