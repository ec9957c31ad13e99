//! A command on an image of which the outline may be known.

ghost use Rattle.std.specs.Prelude.{IfOk, IfErr};
ghost use Rattle.lfs_block.specs.Patch.{applied};
ghost use Rattle.lfs_fs.specs.Mounted.{IsOutlineOf};
ghost use Rattle.lfs_fs.specs.Table.{IsTableOf};
ghost use Rattle.lfs_command.specs.AskedFor.{asked_for};
ghost use Rattle.lfs_command.specs.Planned.{Plans, RefusesPlan};
ghost use Rattle.lfs_history.specs.History.{IsMounted};
ghost use Rattle.lfs_session.specs.Known.{IsKnown};

use crate::known::{Known, take_known};
use lfs_block::{Image, Patch};
use lfs_edit::{Asked, Refusal, carry_out};
use std::alloc::Global;

/// A patch of an image, and what is known of the patched image.
#[derive(Drop)]
pub(crate) struct Carried {
    pub(crate) patch: Patch,
    pub(crate) known: Known,
}

/// Carries a command out on an image, its outline and the table of the blocks that it uses, which are read again where they aren't
/// known. They are known no longer once the command is carried out, or memory was wanting.
pub(crate) fn carried_out(
    alloc: Global,
    image: &Image,
    known: &mut Option<Known>,
    command: &Asked<'_>,
) -> Result<Carried, Refusal>
    requires mounts { IsMounted image.now.disk }
    requires known { IsKnown image.now.disk known.old }
    ensures planned { IfOk result (λ change. Plans image.now.disk (asked_for command.now) change.patch) }
    ensures outline { IfOk result (λ change. IsOutlineOf (applied change.patch image.now.disk) change.known.outline) }
    ensures table { IfOk result (λ change. IsTableOf change.known.outline change.known.used) }
    ensures refused { IfErr result (λ refusal. RefusesPlan image.now.disk (asked_for command.now) refusal) }
    ensures known { IsKnown image.now.disk known.new }
{
    let mut taken = take_known(alloc, image, known)?;
    match carry_out(alloc, image, &mut taken.outline, &mut taken.used, command) {
        Ok(patch) => Ok(Carried {
            patch,
            known: taken,
        }),
        Err(Refusal::Memory) => Err(Refusal::Memory),
        Err(refusal) => {
            *known = Some(taken);
            Err(refusal)
        }
    }
}
