//! One block put into an image.

ghost use Rattle.std.specs.Prelude.{◌≡◌, ◌<◌, length, OnErr, OnOk};
ghost use Rattle.lfs_block.specs.Disk.{put};
ghost use Rattle.lfs_block.specs.PatchLaws.{IsDiskAs};

use crate::changing::make_changes;
use lfs_block::{Blocks, Image, Record};
use std::alloc::{AllocError, Global};

/// Puts another block into an image. Where memory is refused the image is as it was.
pub fn put_block(
    alloc: Global,
    image: &mut Image,
    number: u32,
    new: Vec<u8>,
) -> Result<(), AllocError>
    requires within { number < image.old.disk.count }
    requires len { length new.items ≡ image.old.disk.size }
    ensures put { OnOk result (image.new.disk ≡ put number new.items image.old.disk) }
    ensures refused { OnErr result (image.new ≡ image.old) }
    ensures disk { IsDiskAs image.old.disk image.new.disk }
{
    let _size = image.size();
    let old = Vec::from_slice(alloc, image.block(number))?;
    let mut changes = Vec::new(alloc);
    changes.push(Record { number, old, new })?;
    make_changes(image, changes);
    Ok(())
}
