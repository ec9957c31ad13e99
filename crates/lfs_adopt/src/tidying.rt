//! An image tidied: the later parts of directories that hold no entry leave.

ghost use Rattle.std.specs.Prelude.{OnOk};
ghost use Rattle.lfs_adopt.specs.Tidied.{IsTidiedImage};

use crate::planning::parts_to_put;
use lfs_block::Blocks;
use lfs_lower::{Rewrite, put_parts};
use lfs_meta::parts_depend_on_their_blocks;
use std::alloc::{AllocError, Global};

/// Tidies an image of version 2.0: the later parts of directories that hold no entry leave. If there are such, no pair has a share of the
/// state then, and only pairs that change are rewritten. If the thread isn't whole, the shares of the state don't cancel each other, or a
/// pair has no room for what it is to hold, nothing is changed. If memory is refused, some pairs may be rewritten, and the image is of no
/// use. Takes memory.
pub fn tidy<B: Rewrite>(alloc: Global, image: &mut B) -> Result<(), AllocError>
    ensures { OnOk result (IsTidiedImage (B.disk image.old) (B.disk image.new)) }
{
    parts_depend_on_their_blocks();
    let _fits_the_limits = image.size();
    let changed = parts_to_put(alloc, image)?;
    if changed.is_empty() {
        return Ok(());
    }
    put_parts(alloc, image, &changed)
}
