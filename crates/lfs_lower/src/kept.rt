//! The tags that a block says as version 2.1 reads it.

ghost use Rattle.std.specs.Prelude.{◌≡◌, ◌≤◌, length, option_map, IfOk};
ghost use Rattle.lfs_tag.specs.Writing.{items};
ghost use Rattle.lfs_lower.specs.Spelled.{lowered_tags};

use crate::commit::commit_at;
use lfs_block::crc32;
use lfs_tag::{CHECKSUM_START, Edit, FIRST_WORD};
use std::alloc::{AllocError, Global};

/// What is kept of the commits of a block; `None` where there are none. In a block of the root's first pair a superblock that states
/// version 2.1 states 2.0.
pub(crate) fn kept_edits<'a>(
    alloc: Global,
    in_root: bool,
    block: &'a [u8],
) -> Result<Option<Vec<Edit<'a>>>, AllocError>
    requires { 4 ≤ length block.now }
    ensures { IfOk result (λ kept. option_map (λ edits. items edits.items) kept ≡ lowered_tags in_root block.now) }
{
    let (revision, bytes) = block.split_at(4);
    let mut sum = crc32(CHECKSUM_START, revision);
    let mut prev = FIRST_WORD;
    let mut rest = bytes;
    let mut is_there = false;
    let mut edits = Vec::new(alloc);
    while let Some(commit) = commit_at(in_root, sum, prev, rest, &mut edits)? {
        sum = CHECKSUM_START;
        prev = commit.next;
        rest = commit.rest;
        is_there = true;
    }
    Ok(is_there.then_some(edits))
}
