//! All blocks of an image lowered.

ghost use Rattle.std.specs.Prelude.{OnOk};
ghost use Rattle.lfs_lower.specs.Through.{IsLoweredThrough};

use crate::lowering::lower_block;
use lfs_block::{Blocks, Image};
use std::alloc::{AllocError, Global};

/// Lowers each block of an image, whatever its thread is: it is written anew with what version 2.1 reads of it, as one commit that
/// version 2.0 reads, and erased where that is none. So its pairs can be read, also those to which no thread leads, but no file's
/// blocks. Where memory is refused some blocks may be lowered, and the image is of no use. Takes memory.
pub fn lower_all(alloc: Global, image: &mut Image) -> Result<(), AllocError>
    ensures { OnOk result (IsLoweredThrough image.old.disk image.new.disk) }
{
    let _fits_the_limits = image.size();
    for number in 0..image.count() {
        lower_block(alloc, image, number)?;
    }
    Ok(())
}
