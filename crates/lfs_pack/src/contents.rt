//! The contents of files in new blocks of an image.

ghost use Rattle.std.specs.Prelude.{◌≡◌, ◌<◌, ◌^◌, All, AllPairs, length, map, OnErr, OnOk};
ghost use Rattle.lfs_block.specs.Disk.{block_of};
ghost use Rattle.lfs_file.specs.Capacity.{least_blocks};
ghost use Rattle.lfs_file.specs.Laying.{laid};
ghost use Rattle.lfs_fs.specs.DiskBut.{IsDiskBut};

use crate::changing::make_changes;
use lfs_block::{Blocks, Image, changes_change_their_blocks};
use lfs_write::laid;
use std::alloc::{AllocError, Global};

/// Lays the contents of a file in new blocks of an image. Where memory is refused the image is as it was.
pub fn lay_contents(
    alloc: Global,
    image: &mut Image,
    bytes: &[u8],
    blocks: &[u32],
) -> Result<(), AllocError>
    requires rising { AllPairs ◌<◌ blocks.now }
    requires below { All (λ b. b < image.old.disk.count) blocks.now }
    requires many { length blocks.now ≡ least_blocks image.old.disk.size (length bytes.now) }
    requires few { length blocks.now < 2 ^ 32 }
    ensures laid { OnOk result (map (block_of image.new.disk) blocks.now ≡ laid image.old.disk.size bytes.now blocks.now) }
    ensures refused { OnErr result (image.new ≡ image.old) }
    ensures others { IsDiskBut blocks.now image.old.disk image.new.disk }
{
    changes_change_their_blocks();
    let _size = image.size();
    let changes = laid(alloc, image, bytes, blocks)?;
    make_changes(image, changes);
    Ok(())
}
