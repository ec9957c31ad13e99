//! The contents of files that commands put into a new image.

ghost use Rattle.std.specs.Prelude.{◌≡◌, ◌<◌, ◌≤◌, ◌^◌, All, AllPairs, OnOk, length, take};
ghost use Rattle.lfs_fs.specs.DiskBut.{IsDiskBut};
ghost use Rattle.lfs_fs.specs.Volume.{Volume};
ghost use Rattle.lfs_command.specs.AskedFor.{contents_len, named_command};
ghost use Rattle.lfs_command.specs.Need.{data_blocks};
ghost use Rattle.lfs_command.specs.Planned.{HasLaid};
ghost use Rattle.lfs_command.specs.Supplies.{Supplies};
ghost use Rattle.lfs_law.specs.PlansHold.{content_blocks};

use crate::contents::lay_contents;
use lfs_block::{Blocks, Image};
use lfs_command::{Command, Named, data_blocks, inline_limit};
use std::alloc::{AllocError, Global};

/// Lays what a command puts, where it doesn't stand in its entry, in the first of these blocks.
pub(crate) fn lay_for(
    alloc: Global,
    image: &mut Image,
    command: &Named<'_>,
    blocks: &[u32],
) -> Result<(), AllocError>
    requires rising { AllPairs ◌<◌ blocks.now }
    requires below { All (λ b. b < image.old.disk.count) blocks.now }
    requires enough { (v : Volume) → v.size ≡ image.old.disk.size → data_blocks v (named_command command.now) ≤ length blocks.now }
    requires len { contents_len command.now < 2 ^ 32 }
    ensures laid { OnOk result ((v : Volume) (s : Supplies) → v.size ≡ image.old.disk.size
        → s.blocks ≡ take (data_blocks v (named_command command.now)) blocks.now → HasLaid v (named_command command.now) s image.new.disk) }
    ensures others { OnOk result ((v : Volume) (s : Supplies) → v.size ≡ image.old.disk.size
        → s.blocks ≡ take (data_blocks v (named_command command.now)) blocks.now
        → IsDiskBut (content_blocks v (named_command command.now) s) image.old.disk image.new.disk) }
{
    let size = image.size();
    match command {
        Command::Put { bytes, most, .. } if bytes.len() > inline_limit(size, *most) as usize => {
            let count = data_blocks(size, command) as usize;
            lay_contents(alloc, image, bytes, &blocks[..count])
        }
        _ => Ok(()),
    }
}
