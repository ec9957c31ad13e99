//! What a command changes of an image.

ghost use Rattle.std.specs.Prelude.{IfOk, IfErr};
ghost use Rattle.lfs_fs.specs.Mounted.{IsMountOf};
ghost use Rattle.lfs_command.specs.AskedFor.{asked_for};
ghost use Rattle.lfs_command.specs.Planned.{Plans, RefusesPlan};

use crate::patching::patch_judged;
use lfs_block::{Image, Patch};
use lfs_command::{Asked, Refusal, by_names};
use lfs_draft::judge;
use lfs_fs::{Mounted, outline_of, outlines_are_sound};
use lfs_law::outlines_are_judged_alike;
use std::alloc::Global;

/// The patch that carries out a command on an image, or why there is none, as `carry_out` has it.
pub fn plan(
    alloc: Global,
    image: &Image,
    mounted: &Mounted,
    command: &Asked<'_>,
) -> Result<Patch, Refusal>
    requires mounted { IsMountOf image.now.disk mounted.now }
    ensures planned { IfOk result (λ patch. Plans image.now.disk (asked_for command.now) patch) }
    ensures refused { IfErr result (λ refusal. RefusesPlan image.now.disk (asked_for command.now) refusal) }
{
    outlines_are_judged_alike();
    outlines_are_sound();
    let command = by_names(alloc, command)?;
    judge(mounted.outline(), &command)?;
    let mut outline = outline_of(alloc, image)?;
    let mut used = outline.used_blocks(alloc)?;
    patch_judged(alloc, image, &mut outline, &mut used, &command)
}
