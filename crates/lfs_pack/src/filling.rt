//! One pair of an image filled.

ghost use Rattle.std.specs.Prelude.{[], ◌∷◌, OnOk};
ghost use Rattle.lfs_fs.specs.Sound.{AreAttributes};
ghost use Rattle.lfs_law.specs.PairWritten.{link_to};
ghost use Rattle.lfs_law.specs.SuperblockBytes.{volume_bytes};
ghost use Rattle.lfs_fs.specs.DiskBut.{IsDiskBut};
ghost use Rattle.lfs_pack.specs.Filled.{CanFillPair, FillPairs, first_blocks};

use crate::putting::put_block;
use lfs_block::{Blocks, Image, put_blocks_stand};
use lfs_fs::{Outline, OutlinePart};
use lfs_meta::Tail;
use lfs_pair::first_block;
use lfs_write::stored_entries;
use std::alloc::{AllocError, Global};

/// Fills the pair of a part with it and the tail behind it: the pair's first block is written, and no other one.
pub(crate) fn fill_pair(
    alloc: Global,
    image: &mut Image,
    outline: &Outline,
    part: &OutlinePart,
    tail: Tail,
) -> Result<(), AllocError>
    requires rise { AreAttributes outline.now.limits.attribute outline.now.attributes }
    requires can { CanFillPair image.old.disk (volume_bytes outline.now) outline.now.attributes (link_to part.now tail) }
    ensures filled { OnOk result (FillPairs image.old.disk image.new.disk (volume_bytes outline.now) outline.now.attributes (link_to part.now tail ∷ [])) }
    ensures others { IsDiskBut (first_blocks (link_to part.now tail ∷ [])) image.old.disk image.new.disk }
{
    put_blocks_stand();
    let size = image.size();
    let entries = stored_entries(alloc, outline, part)?;
    let block = first_block(alloc, size, &entries, tail).ok_or(AllocError)?;
    put_block(alloc, image, part.pair.0, block)?;
    Ok(())
}
