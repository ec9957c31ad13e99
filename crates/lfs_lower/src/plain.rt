//! Blocks and pairs of which version 2.0 reads what version 2.1 does.

ghost use Rattle.std.specs.Prelude.{◌≡◌, ◌<◌, ◌≤◌, IfOk, length};
ghost use Rattle.std.specs.Bool.{OnTrue};
ghost use Rattle.lfs_block.specs.Disk.{block_of};
ghost use Rattle.lfs_meta.specs.LiveBlock.{committed};
ghost use Rattle.lfs_tag.specs.Tags.{item_with};
ghost use Rattle.lfs_tag.specs.Writing.{item_of, items};
ghost use Rattle.lfs_lower.specs.Alone.{IsPlain};
ghost use Rattle.lfs_lower.specs.Spelled.{lowered_tags};

use crate::kept::kept_edits;
use crate::lowering::ROOT_END;
use lfs_block::Blocks;
use lfs_tag::{Edit, Log, Tag, Tags};
use std::alloc::{AllocError, Global};

/// Whether an edit writes a tag with this data.
fn writes(edit: &Edit<'_>, tag: Tag, content: &[u8]) -> bool
    ensures { OnTrue result (item_of edit.now ≡ item_with tag content.now) }
{
    edit.tag.word() == tag.word() && edit.content.as_bytes() == content
}

/// Whether edits write these tags.
fn write_all(edits: &[Edit<'_>], tags: Tags<'_>) -> bool
    ensures { OnTrue result (items edits.now ≡ tags.entry) }
{
    let mut index = 0;
    'each: for (tag, content) in tags {
        if index >= edits.len() || !writes(&edits[index], tag, content) {
            return false;
        }
        index += 1;
    }
    index == edits.len()
}

/// Whether version 2.0 reads of a block what version 2.1 does. In a block of the root's first pair the superblock states no later version
/// then. Takes memory.
fn is_plain(alloc: Global, in_root: bool, block: &[u8]) -> Result<bool, AllocError>
    requires { 4 ≤ length block.now }
    ensures { IfOk result (λ plain. OnTrue plain (lowered_tags in_root block.now ≡ committed block.now)) }
{
    let kept = kept_edits(alloc, in_root, block)?;
    let log = Log::read(block);
    match kept {
        Some(edits) => Ok(log.commits > 0 && write_all(&edits, log.tags())),
        None => Ok(log.commits == 0),
    }
}

/// Whether both blocks of a pair are so. Takes memory.
pub(crate) fn is_plain_pair<B: Blocks>(
    alloc: Global,
    blocks: &B,
    pair: (u32, u32),
) -> Result<bool, AllocError>
    requires first { pair.0 < (B.disk blocks.now).count }
    requires second { pair.1 < (B.disk blocks.now).count }
    ensures { IfOk result (λ plain. OnTrue plain (IsPlain (B.disk blocks.now) pair.0 × IsPlain (B.disk blocks.now) pair.1)) }
{
    let _fits_the_limits = blocks.size();
    if !is_plain(alloc, pair.0 < ROOT_END, blocks.block(pair.0))? {
        return Ok(false);
    }
    is_plain(alloc, pair.1 < ROOT_END, blocks.block(pair.1))
}
