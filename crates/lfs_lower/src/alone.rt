//! Images of which single blocks are written anew, and a block of a pair written alone.

ghost use Rattle.std.specs.Prelude.{◌≡◌, ◌≢◌, ◌<◌, ◌≤◌, IfOk, OnOk, length};
ghost use Rattle.lfs_block.specs.Bytes.{IsBytes};
ghost use Rattle.lfs_lower.specs.Alone.{IsWrittenAlone, is_silent};

use crate::kept::kept_edits;
use lfs_block::{Blocks, Image, put_blocks_stand};
use lfs_tag::Log;
use std::alloc::{AllocError, Global};

/// An image of which single blocks can be written anew, in place or beside it.
pub trait Rewrite: Blocks {
    ghost use Rattle.std.specs.Prelude.{◌≡◌, ◌<◌, OnErr, OnOk, length};
    ghost use Rattle.lfs_block.specs.Disk.{put};

    /// Gives a block these bytes. Memory that is refused changes nothing. Takes memory.
    fn rewrite(&mut self, alloc: Global, n: u32, bytes: &[u8]) -> Result<(), AllocError>
        requires within { n < (Self.disk self.old).count }
        requires complete { length bytes.now ≡ (Self.disk self.old).size }
        ensures put { OnOk result (Self.disk self.new ≡ put n bytes.now (Self.disk self.old)) }
        ensures stays { OnErr result (Self.disk self.new ≡ Self.disk self.old) };
}

impl Rewrite for Image {
    fn rewrite(&mut self, _alloc: Global, n: u32, bytes: &[u8]) -> Result<(), AllocError> {
        self.write_block(n, bytes);
        Ok(())
    }
}

/// Whether neither version reads a commit of a block. Takes memory.
fn is_silent(alloc: Global, block: &[u8]) -> Result<bool, AllocError>
    requires { 4 ≤ length block.now }
    ensures { IfOk result (λ silent. is_silent block.now ≡ silent) }
{
    let kept = kept_edits(alloc, false, block)?;
    let log = Log::read(block);
    Ok(kept.is_none() && log.commits == 0)
}

/// Writes a block of an image, and erases the one beside it. A block of which neither version reads a commit stays as it is: it says nothing,
/// and a file may have it too. If memory is refused, the live block may be written. Takes memory.
pub(crate) fn write_alone<B: Rewrite>(
    alloc: Global,
    image: &mut B,
    live: u32,
    beside: u32,
    block: &[u8],
) -> Result<(), AllocError>
    requires apart { live ≢ beside }
    requires first { live < (B.disk image.old).count }
    requires second { beside < (B.disk image.old).count }
    requires complete { length block.now ≡ (B.disk image.old).size }
    ensures written { OnOk result (IsWrittenAlone (B.disk image.old) (B.disk image.new) live beside block.now) }
{
    put_blocks_stand();
    let size = image.size();
    if is_silent(alloc, image.block(beside))? {
        image.rewrite(alloc, live, block)?;
        return Ok(());
    }
    let erased = vec![in alloc; 0xff; size as usize]?;
    image.rewrite(alloc, live, block)?;
    image.rewrite(alloc, beside, &erased)
}
