//! Blocks that tests are made of.

ghost use Rattle.std.specs.Prelude.{◌≡◌, IfOk};
ghost use Rattle.lfs_read_tests.specs.Samples.{erased_behind};

use std::alloc::{AllocError, Global};

/// A block of this size in bytes that begins so, and is erased behind that. Refused where a growth of memory is.
pub fn block_of(alloc: Global, size: usize, front: &[u8]) -> Result<Vec<u8>, AllocError>
    ensures block { IfOk result (λ block. block.items ≡ erased_behind size front.now) }
{
    let mut block = Vec::from_slice(alloc, front)?;
    block.resize(size, 0xff)?;
    Ok(block)
}
