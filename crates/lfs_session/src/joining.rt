//! Commands that are carried out on an image, one after another, as one patch.

ghost use Rattle.std.specs.Prelude.{◌≡◌, ◌≤◌, Some, IfOk, IfErr, OnOk, OnErr, map};
ghost use Rattle.lfs_block.specs.Disk.{IsDisk};
ghost use Rattle.lfs_command.specs.AskedFor.{asked_for};
ghost use Rattle.lfs_command.specs.Planned.{RefusesPlan};
ghost use Rattle.lfs_history.specs.History.{IsMounted};
ghost use Rattle.lfs_history.specs.Together.{RefusesTogether};
ghost use Rattle.lfs_session.specs.Joining.{AreJoined, CarriesOneMore, IsBehind, MayJoin, MayTakeBack, joined_with, taken_back};
ghost use Rattle.lfs_session.specs.Known.{IsKnown};

use crate::carried::{Carried, carried_out};
use crate::known::Known;
use lfs_block::{Image, Patch, applied_patches_revert};
use lfs_edit::{Asked, Refusal};
use lfs_history::commands_are_made_together;
use lfs_journal::{Joint, composed_patches_apply, joints_go_on};
use lfs_law::cuts_follow;
use std::alloc::{AllocError, Global};

/// The first of several commands that is refused.
pub(crate) struct Unjoined {
    /// How many stand before it.
    pub(crate) at: usize,
    /// Why it is refused.
    pub(crate) refusal: Refusal,
}

/// Lays a patch over those that a joint is, if there is one, or begins a joint with it. Want of memory leaves the joint as it was.
fn join(alloc: Global, joint: &mut Option<Joint>, patch: &Patch) -> Result<(), AllocError>
    requires { MayJoin joint.old patch.now }
    ensures done { OnOk result (joint.new ≡ Some (joined_with joint.old patch.now)) }
    ensures unchanged { OnErr result (joint.new ≡ joint.old) }
{
    match joint {
        Some(joint) => joint.lay(alloc, patch),
        None => {
            *joint = Some(Joint::of(alloc, patch)?);
            Ok(())
        }
    }
}

/// Carries one command more out on an image, which a joint leads to if there is one, and takes its patch into the joint. Room for the image
/// that it leaves is made first. A refusal leaves the image and the joint as they were.
fn carry_on(
    alloc: Global,
    image: &mut Image,
    known: &mut Option<Known>,
    joint: &mut Option<Joint>,
    command: &Asked<'_>,
) -> Result<(), Refusal>
    requires mounts { IsMounted image.old.disk }
    requires known { IsKnown image.old.disk known.old }
    requires behind { IsBehind joint.old image.old.disk }
    ensures carried { OnOk result (CarriesOneMore image.old.disk joint.old (asked_for command.now) joint.new image.new.disk) }
    ensures refused { IfErr result (λ refusal. RefusesPlan image.old.disk (asked_for command.now) refusal) }
    ensures image { OnErr result (image.new.disk ≡ image.old.disk) }
    ensures joint { OnErr result (joint.new ≡ joint.old) }
    ensures most { image.old.room ≤ image.new.room }
    ensures known { IsKnown image.new.disk known.new }
{
    composed_patches_apply();
    let Carried {
        patch,
        known: behind,
    } = carried_out(alloc, image, known, command)?;
    if !image.reserve(patch.after()) {
        return Err(Refusal::Memory);
    }
    join(alloc, joint, &patch)?;
    patch.apply(image);
    *known = Some(behind);
    Ok(())
}

/// Takes the patches that a joint is back from the image that they made, if there is a joint. What is known of that image is known no
/// longer then.
fn take_back(image: &mut Image, known: &mut Option<Known>, joint: Option<Joint>)
    requires agrees { MayTakeBack joint image.old.disk }
    requires known { IsKnown image.old.disk known.old }
    ensures disk { image.new.disk ≡ taken_back joint image.old.disk }
    ensures room { image.new.room ≡ image.old.room }
    ensures known { IsKnown image.new.disk known.new }
{
    if let Some(joint) = joint {
        joint.into_patch().revert(image);
        *known = None;
    }
}

/// Carries commands out on an image, one after another, and answers their patches as one, which there is none of where there is no command.
/// What was known of the image is known of the one that they leave. The first that is refused leaves the image as it was before all of
/// them.
pub(crate) fn joined(
    alloc: Global,
    image: &mut Image,
    known: &mut Option<Known>,
    commands: &[Asked<'_>],
) -> Result<Option<Patch>, Unjoined>
    requires disk { IsDisk image.old.disk }
    requires mounts { IsMounted image.old.disk }
    requires known { IsKnown image.old.disk known.old }
    ensures joined { IfOk result (λ patch. AreJoined image.old.disk (map asked_for commands.now) patch image.new.disk) }
    ensures refused { IfErr result (λ first. RefusesTogether image.old.disk (map asked_for commands.now) first.at first.refusal) }
    ensures unchanged { OnErr result (image.new.disk ≡ image.old.disk) }
    ensures mounts { IsMounted image.new.disk }
    ensures most { image.old.room ≤ image.new.room }
    ensures known { IsKnown image.new.disk known.new }
{
    applied_patches_revert();
    commands_are_made_together();
    composed_patches_apply();
    joints_go_on();
    cuts_follow();
    let mut joint = None;
    for (at, command) in commands.iter().enumerate() {
        if let Err(refusal) = carry_on(alloc, image, known, &mut joint, command) {
            take_back(image, known, joint);
            return Err(Unjoined { at, refusal });
        }
    }
    match joint {
        Some(joint) => Ok(Some(joint.into_patch())),
        None => Ok(None),
    }
}
