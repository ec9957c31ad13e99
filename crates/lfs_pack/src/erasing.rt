//! Blocks of an image that are erased.

ghost use Rattle.std.specs.Prelude.{◌≡◌, ◌<◌, ℕ, All, OnOk, replicate};
ghost use Rattle.lfs_block.specs.Disk.{block_of};
ghost use Rattle.lfs_fs.specs.DiskBut.{IsDiskBut};
ghost use Rattle.lfs_fs.specs.Uses.{times};

use crate::putting::put_block;
use lfs_block::{Blocks, Image, put_blocks_stand};
use std::alloc::{AllocError, Global};

/// Erases blocks of an image.
pub fn erase(alloc: Global, image: &mut Image, blocks: &[u32]) -> Result<(), AllocError>
    requires { All (λ b. b < image.old.disk.count) blocks.now }
    ensures erased { OnOk result ((b : ℕ) → 0 < times b blocks.now → block_of image.new.disk b ≡ replicate image.new.disk.size 0xff) }
    ensures others { OnOk result (IsDiskBut blocks.now image.old.disk image.new.disk) }
{
    put_blocks_stand();
    let size = image.size();
    'each: for block in blocks {
        let erased = vec![in alloc; 0xff; size as usize]?;
        put_block(alloc, image, *block, erased)?;
    }
    Ok(())
}
