//! The changes that lay a file's contents in new blocks.

ghost use Rattle.std.specs.Prelude.{◌≡◌, ◌<◌, ◌^◌, All, AllPairs, length, IfOk};
ghost use Rattle.lfs_file.specs.Capacity.{least_blocks};
ghost use Rattle.lfs_fs.specs.Volume.{Volume};
ghost use Rattle.lfs_write.specs.Laid.{AreLaid, AreLaidFor};
ghost use Rattle.lfs_command.specs.AskedFor.{named_command};
ghost use Rattle.lfs_command.specs.Need.{data_blocks};
ghost use Rattle.lfs_command.specs.Supplies.{Supplies};

use crate::writing::changes_of;
use lfs_block::{Blocks, Record};
use lfs_command::{Command, Named, inline_limit};
use lfs_file::{laid_blocks_are_complete, lay};
use std::alloc::{AllocError, Global};

/// The changes that lay a file of these bytes in these blocks.
pub fn laid<B: Blocks>(
    alloc: Global,
    image: &B,
    bytes: &[u8],
    blocks: &[u32],
) -> Result<Vec<Record>, AllocError>
    requires rising { AllPairs ◌<◌ blocks.now }
    requires below { All (λ b. b < (B.disk image.now).count) blocks.now }
    requires many { length blocks.now ≡ least_blocks (B.disk image.now).size (length bytes.now) }
    requires few { length blocks.now < 2 ^ 32 }
    ensures { IfOk result (λ changes. AreLaid (B.disk image.now) bytes.now blocks.now changes.items) }
{
    laid_blocks_are_complete();
    let size = image.size();
    let contents = lay(alloc, bytes, blocks, size).ok_or(AllocError)?;
    let changes = changes_of(alloc, image, blocks, contents)?;
    Ok(changes)
}

/// The changes that lay what a command puts into these blocks: none where it puts no contents there.
pub fn laid_for<B: Blocks>(
    alloc: Global,
    image: &B,
    command: &Named<'_>,
    blocks: &[u32],
) -> Result<Vec<Record>, AllocError>
    requires rising { AllPairs ◌<◌ blocks.now }
    requires below { All (λ b. b < (B.disk image.now).count) blocks.now }
    requires many { (v : Volume) → v.size ≡ (B.disk image.now).size → length blocks.now ≡ data_blocks v (named_command command.now) }
    requires few { length blocks.now < 2 ^ 32 }
    ensures { IfOk result (λ changes. (v : Volume) (s : Supplies) → v.size ≡ (B.disk image.now).size → s.blocks ≡ blocks.now
        → AreLaidFor (B.disk image.now) v (named_command command.now) s changes.items) }
{
    match command {
        Command::Put { bytes, most, .. }
            if bytes.len() > inline_limit(image.size(), *most) as usize => {
            laid(alloc, image, bytes, blocks)
        }
        _ => Ok(Vec::new(alloc)),
    }
}
