//! Pairs of an image lowered.

ghost use Rattle.std.specs.Prelude.{◌<◌, ◌≤◌, ℕ, All, OnOk};
ghost use Rattle.lfs_fs.specs.Front.{pairs_name};
ghost use Rattle.lfs_settle.specs.Lowered.{ArePairsLowered};

use lfs_lower::{Rewrite, lower_pair};
use lfs_meta::parts_depend_on_their_blocks;
use std::alloc::{AllocError, Global};

/// Lowers pairs, no two of which have a block in common. If memory is refused, those that come first are lowered. Takes memory.
pub(crate) fn lower_pairs<B: Rewrite>(
    alloc: Global,
    image: &mut B,
    pairs: &[(u32, u32)],
) -> Result<(), AllocError>
    requires within { (b : ℕ) → 0 < pairs_name b pairs.now → b < (B.disk image.old).count }
    requires apart { (b : ℕ) → pairs_name b pairs.now ≤ 1 }
    ensures { OnOk result (ArePairsLowered (B.disk image.old) (B.disk image.new) pairs.now) }
{
    parts_depend_on_their_blocks();
    let _fits_the_limits = image.size();
    for pair in pairs {
        lower_pair(alloc, image, *pair)?;
    }
    Ok(())
}
