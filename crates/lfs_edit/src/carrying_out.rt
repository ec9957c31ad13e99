//! Commands that are carried out on an image and the outline of its volume.

ghost use Rattle.std.specs.Prelude.{◌≡◌, ◌⊎◌, IfOk, IfErr, OnOk};
ghost use Rattle.lfs_block.specs.Patch.{applied};
ghost use Rattle.lfs_fs.specs.Mounted.{IsOutlineOf};
ghost use Rattle.lfs_fs.specs.Table.{IsTableOf};
ghost use Rattle.lfs_command.specs.AskedFor.{asked_for, named_command};
ghost use Rattle.lfs_command.specs.declared.refusal.Refusal.TheVariants.{Memory};
ghost use Rattle.lfs_edit.specs.Carried.{IsFinished, IsHeldJudged, IsRefusedBy};
ghost use Rattle.lfs_command.specs.Planned.{Plans, RefusesPlan};

use crate::patching::patch_judged;
use lfs_block::{Image, Patch};
use lfs_command::{Asked, Named, Refusal, by_names};
use lfs_draft::judge;
use lfs_fs::{Outline, UsedBlocks, outline_of, outlines_are_sound};
use lfs_law::outlines_are_judged_alike;
use std::alloc::Global;

/// Carries out a command that no check refuses, those on room aside. Where it is refused for want of room, the outline is read again, so
/// that it is as it was, and the blocks that it uses are counted anew.
fn carry_or_restore(
    alloc: Global,
    image: &Image,
    outline: &mut Outline,
    used: &mut UsedBlocks,
    command: &Named<'_>,
) -> Result<Patch, Refusal>
    requires judged { IsHeldJudged image.now.disk (named_command command.now) outline.old }
    requires table { IsTableOf outline.old used.old }
    ensures finished { IfOk result (λ patch. IsFinished image.now.disk (named_command command.now) patch outline.new) }
    ensures refused { IfErr result (λ r. IsRefusedBy image.now.disk (named_command command.now) r) }
    ensures unchanged { IfErr result (λ r. (r ≡ Memory) ⊎ (outline.new ≡ outline.old)) }
    ensures table { OnOk result (IsTableOf outline.new used.new) }
    ensures counted { IfErr result (λ r. (r ≡ Memory) ⊎ IsTableOf outline.new used.new) }
{
    outlines_are_sound();
    match patch_judged(alloc, image, outline, used, command) {
        Ok(patch) => Ok(patch),
        Err(Refusal::Memory) => Err(Refusal::Memory),
        Err(refusal) => {
            *outline = outline_of(alloc, image)?;
            *used = outline.used_blocks(alloc)?;
            Err(refusal)
        }
    }
}

/// Carries out a command on an image, the outline of its volume and the table of the blocks that it uses: the patch of the image, and
/// outline and table of the patched image. `BadPath` where a text spells no path; else the first of these that holds:
///
/// - to make a directory: the path is the root's (`IsRoot`); a front of it isn't there (`NotFound`) or is a file
///   (`NotADirectory`); something is at it (`Exists`); its last name is longer than the limit (`NameTooLong`);
/// - to put a file's contents: the path is the root's (`IsRoot`); a front of it isn't there (`NotFound`) or is a file
///   (`NotADirectory`); a directory is at it (`IsADirectory`); nothing is at it, and its last name is longer than the limit
///   (`NameTooLong`); the contents are longer than the limit (`FileTooLarge`);
/// - to remove a file or a directory: the path is the root's (`IsRoot`); a front of it isn't there (`NotFound`) or is a file
///   (`NotADirectory`); nothing is at it (`NotFound`); a directory that has an entry is (`NotEmpty`);
/// - to move: one of the paths is the root's (`IsRoot`); a front of the first isn't there (`NotFound`) or is a file
///   (`NotADirectory`); nothing is at it (`NotFound`); the second lies strictly below it (`IntoItself`); then of the second what
///   is said of a directory that is made;
/// - to set or remove an attribute: a front of the path isn't there (`NotFound`) or is a file (`NotADirectory`); nothing is at it
///   (`NotFound`); the value is longer than the limit (`AttrTooLarge`), or there is no attribute of the kind (`NoAttr`);
/// - to lengthen the image: it has as many blocks, or an image of its block size can't have so many (`BadCount`);
/// - then of each: an entry of a part that is changed weighs more than a block has room for (`EntryTooLarge`); fewer blocks are free,
///   those that are added among them, than the command needs (`NoSpace`).
///
/// `Memory` says only that a growth was refused; outline and table are of no use then. Any other refusal leaves them as they were.
pub fn carry_out(
    alloc: Global,
    image: &Image,
    outline: &mut Outline,
    used: &mut UsedBlocks,
    command: &Asked<'_>,
) -> Result<Patch, Refusal>
    requires outline { IsOutlineOf image.now.disk outline.old }
    requires table { IsTableOf outline.old used.old }
    ensures planned { IfOk result (λ patch. Plans image.now.disk (asked_for command.now) patch) }
    ensures outline { IfOk result (λ patch. IsOutlineOf (applied patch image.now.disk) outline.new) }
    ensures refused { IfErr result (λ r. RefusesPlan image.now.disk (asked_for command.now) r) }
    ensures unchanged { IfErr result (λ r. (r ≡ Memory) ⊎ (outline.new ≡ outline.old)) }
    ensures table { OnOk result (IsTableOf outline.new used.new) }
    ensures counted { IfErr result (λ r. (r ≡ Memory) ⊎ IsTableOf outline.new used.new) }
{
    outlines_are_judged_alike();
    outlines_are_sound();
    let command = by_names(alloc, command)?;
    judge(outline, &command)?;
    carry_or_restore(alloc, image, outline, used, &command)
}
