//! A block lowered.

ghost use Rattle.std.specs.Prelude.{◌≡◌, length, IfOk};
ghost use Rattle.lfs_block.specs.Geometry.{IsBlockSize};
ghost use Rattle.lfs_lower.specs.Spelled.{lowered_block};

use crate::kept::kept_edits;
use lfs_meta::revision;
use lfs_pair::block_with;
use std::alloc::{AllocError, Global};

/// A block with what version 2.1 reads of it as one commit that version 2.0 reads, or an erased block where there is no commit. In a
/// block of the root's first pair a superblock that states version 2.1 states 2.0.
pub(crate) fn lowered_block(
    alloc: Global,
    in_root: bool,
    block: &[u8],
) -> Result<Vec<u8>, AllocError>
    requires { IsBlockSize (length block.now) }
    ensures { IfOk result (λ lowered. lowered.items ≡ lowered_block in_root block.now) }
{
    let Some(edits) = kept_edits(alloc, in_root, block)? else {
        return Ok(vec![in alloc; 0xff; block.len()]?);
    };
    block_with(alloc, block.len() as u32, revision(block), &edits)
}
