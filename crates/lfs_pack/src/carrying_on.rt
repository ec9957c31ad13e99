//! Commands of rows that are carried out on a new image.

ghost use Rattle.std.specs.Prelude.{◌<◌, IfErr, OnOk};
ghost use Rattle.lfs_fs.specs.Volume.{Volume};
ghost use Rattle.lfs_command.specs.AskedFor.{named_command};
ghost use Rattle.lfs_command.specs.Command.{HasNames};
ghost use Rattle.lfs_pack.specs.RowsCarried.{CarriesOn, IsAtWork, RefusesOn};
ghost use Rattle.lfs_pack.specs.Unwritten.{IsOfRow};

use crate::erasing::erase;
use crate::image_laws::unwritten_images_go_on;
use crate::laying::lay_for;
use crate::new_image::NewImage;
use lfs_block::Blocks;
use lfs_command::{Named, Refusal};
use lfs_edit::carry;
use lfs_law::free_after;
use std::alloc::Global;

/// Carries out a command that rows have on a new image: what it takes for a file's contents is laid at once, and what it gives back is
/// erased. A refusal is the verdict of the command on the volume so far; `Memory` says only that a growth was refused. After a refusal the
/// image is of no more use.
pub(crate) fn carry_on(
    alloc: Global,
    new: &mut NewImage,
    command: &Named<'_>,
) -> Result<(), Refusal>
    requires at_work { (v : Volume) × IsAtWork new.old v }
    requires row { IsOfRow (named_command command.now) }
    requires names { HasNames (named_command command.now) }
    ensures carried { OnOk result (CarriesOn (named_command command.now) new.old new.new) }
    ensures refused { IfErr result (λ r. RefusesOn (named_command command.now) new.old r) }
{
    unwritten_images_go_on();
    free_after();
    let _size = new.image.size();
    let carried = carry(alloc, &mut new.outline, &mut new.used, command)?;
    lay_for(alloc, &mut new.image, command, &carried.blocks)?;
    erase(alloc, &mut new.image, &carried.gone)?;
    Ok(())
}
