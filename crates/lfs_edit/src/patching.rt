//! Commands that are carried out on an image and the outline of its volume: the patch that writes what they leave.

ghost use Rattle.std.specs.Prelude.{◌≡◌, ◌<◌, ◌^◌, ◌⊎◌, IfOk, IfErr, OnOk};
ghost use Rattle.lfs_block.specs.Disk.{erased_block};
ghost use Rattle.lfs_fs.specs.Table.{IsTableOf};
ghost use Rattle.lfs_command.specs.AskedFor.{contents_len, named_command};
ghost use Rattle.lfs_command.specs.Clean.{clean};
ghost use Rattle.lfs_command.specs.declared.refusal.Refusal.TheVariants.{Memory};
ghost use Rattle.lfs_edit.specs.Carried.{IsFinished, IsHeldCut, IsHeldJudged, IsRefusedBy};

use crate::carrying::{carry_judged, settle};
use crate::carrying_laws::{carrying_laws, writing_laws};
use lfs_block::{Blocks, Image, Lengthened, Patch};
use lfs_command::{Named, Refusal, count_after, data_blocks, forced_by};
use lfs_fs::{Outline, UsedBlocks, names_are_ordered, outlines_are_sound};
use lfs_law::{
    commands_set_a_part, cut_links_can_be_written, held_volumes_have_few_entries, tables_follow,
};
use lfs_write::{laid_for, write_links};
use std::alloc::{AllocError, Global};

/// A block of so many bytes of which nothing was written.
fn erased_block(alloc: Global, size: u32) -> Result<Vec<u8>, AllocError>
    ensures { IfOk result (λ block. block.items ≡ erased_block size) }
{
    vec![in alloc; 0xff; size as usize]
}

/// The patch that writes an outline that is cut over the image, as the command lengthens it: a file's new contents in the first of the
/// blocks, and its links that are set.
fn written(
    alloc: Global,
    image: &Image,
    outline: &Outline,
    command: &Named<'_>,
    used: &UsedBlocks,
    blocks: &[u32],
) -> Result<Patch, AllocError>
    requires cut { IsHeldCut image.now.disk (named_command command.now) used.now blocks.now outline.now }
    requires len { contents_len command.now < 2 ^ 32 }
    ensures { IfOk result (λ patch. IsFinished image.now.disk (named_command command.now) patch (clean outline.now)) }
{
    carrying_laws();
    writing_laws();
    cut_links_can_be_written();
    commands_set_a_part();
    let size = image.size();
    let before = image.count();
    let after = count_after(command, before);
    let erased = erased_block(alloc, size)?;
    let long = Lengthened::of(image, after, &erased);
    let data = data_blocks(size, command) as usize;
    let base = laid_for(alloc, &long, command, &blocks[..data])?;
    let forced = forced_by(command);
    let changes = write_links(alloc, &long, outline, used.flags(), forced, base)?;
    Ok(Patch::of(size, before, after, changes))
}

/// Carries out a command on an image, the outline of its volume and the table of the blocks that it uses, where no check refuses it, those
/// on room aside: the patch of the image, and outline and table of the patched image. Where it is refused, outline and table are of no use.
pub(crate) fn patch_judged(
    alloc: Global,
    image: &Image,
    outline: &mut Outline,
    used: &mut UsedBlocks,
    command: &Named<'_>,
) -> Result<Patch, Refusal>
    requires judged { IsHeldJudged image.now.disk (named_command command.now) outline.old }
    requires table { IsTableOf outline.old used.old }
    ensures finished { IfOk result (λ patch. IsFinished image.now.disk (named_command command.now) patch outline.new) }
    ensures table { OnOk result (IsTableOf outline.new used.new) }
    ensures refused { IfErr result (λ r. (r ≡ Memory) ⊎ IsRefusedBy image.now.disk (named_command command.now) r) }
{
    carrying_laws();
    outlines_are_sound();
    names_are_ordered();
    held_volumes_have_few_entries();
    tables_follow();
    let _size = image.size();
    let carried = carry_judged(alloc, outline, used, command)?;
    let patch = written(alloc, image, outline, command, used, &carried.blocks)?;
    settle(outline, used, &carried);
    Ok(patch)
}
