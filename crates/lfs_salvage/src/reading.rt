//! What becomes of the entries of parts that are found.

ghost use Rattle.std.specs.Prelude.{◌≡◌, ◌==◌, if◌then◌else◌, IfOk, slice_index_or};
ghost use Rattle.std.specs.List.{list_any};
ghost use Rattle.lfs_block.specs.declared.mount_fault.MountFault.TheVariants.{BlockTwice};
ghost use Rattle.lfs_file.specs.SkipList.{chain_of};
ghost use Rattle.lfs_meta.specs.BodyHeld.{body_held};
ghost use Rattle.lfs_salvage.specs.Fate.{Elsewhere, HasFileBlocks, Lost, body_fate, chain_fate, fate, head_fate, is_used};
ghost use Rattle.lfs_salvage.specs.FateHeld.{fate_held};
ghost use Rattle.lfs_salvage.specs.declared.block_use.BlockUse.TheVariants.{Free};

use crate::block_use::BlockUse;
use crate::file_body::FileBody;
use crate::parent::Parent;
use lfs_block::{Blocks, MountFault};
use lfs_file::{blocks_of_chains_differ, chain};
use lfs_meta::{Body, Entry, Kind};
use std::alloc::{AllocError, Global};

/// What a block is used for; one that isn't the table's for nothing.
pub(crate) fn use_of(uses: &[BlockUse], block: u32) -> BlockUse
    ensures { result ≡ slice_index_or uses.now block Free }
{
    let index = block as usize;
    if index < uses.len() {
        uses[index]
    } else {
        BlockUse::Free
    }
}

/// Whether a block is in use.
fn is_used(uses: &[BlockUse], block: u32) -> bool
    ensures { result ≡ is_used uses.now block }
{
    !use_of(uses, block).is_free()
}

/// Whether one of these blocks is in use.
fn is_any_used(uses: &[BlockUse], blocks: &[u32]) -> bool
    ensures { result ≡ list_any (is_used uses.now) blocks.now }
{
    blocks.iter().any(|block| is_used(uses, *block))
}

/// What becomes of a file of `size` bytes whose last block is in no use.
fn chain_body<B: Blocks>(
    alloc: Global,
    disk: &B,
    uses: &[BlockUse],
    head: u32,
    size: u32,
) -> Result<FileBody, AllocError>
    ensures fate { IfOk result (λ body. fate_held body ≡ chain_fate uses.now head size (chain_of (B.disk disk.now) head size)) }
    ensures blocks { IfOk result (λ body. HasFileBlocks (B.disk disk.now) (fate_held body)) }
{
    blocks_of_chains_differ();
    let blocks = match chain(alloc, disk, head, size) {
        Ok(blocks) => blocks,
        Err(MountFault::Memory) => return Err(AllocError),
        Err(_) => return Ok(FileBody::Lost(MountFault::BadSkipList)),
    };
    if is_any_used(uses, &blocks) {
        return Ok(FileBody::Lost(MountFault::BlockTwice));
    }
    Ok(FileBody::Chain { head, blocks, size })
}

/// What becomes of a file of `size` bytes whose last block is that of a file of `long` bytes, which is saved.
fn same_head(parent: Parent, long: u32, size: u32) -> FileBody
    ensures { fate_held result ≡ (if long == size then Elsewhere parent else Lost BlockTwice) }
{
    if long == size {
        FileBody::Elsewhere(parent)
    } else {
        FileBody::Lost(MountFault::BlockTwice)
    }
}

/// What becomes of a file of `size` bytes, by what its last block is used for.
fn head_body<B: Blocks>(
    alloc: Global,
    disk: &B,
    uses: &[BlockUse],
    head: u32,
    size: u32,
) -> Result<FileBody, AllocError>
    ensures fate { IfOk result (λ body. fate_held body ≡ head_fate (B.disk disk.now) uses.now head size (slice_index_or uses.now head Free)) }
    ensures blocks { IfOk result (λ body. HasFileBlocks (B.disk disk.now) (fate_held body)) }
{
    match use_of(uses, head) {
        BlockUse::Free => chain_body(alloc, disk, uses, head, size),
        BlockUse::Part { .. } => Ok(FileBody::Lost(MountFault::BlockTwice)),
        BlockUse::Chain => Ok(FileBody::Lost(MountFault::BlockTwice)),
        BlockUse::Head { parent, size: long } => Ok(same_head(parent, long, size)),
    }
}

/// What becomes of a file.
fn body_of<B: Blocks>(
    alloc: Global,
    disk: &B,
    uses: &[BlockUse],
    body: &Body,
) -> Result<FileBody, AllocError>
    ensures fate { IfOk result (λ of. fate_held of ≡ body_fate (B.disk disk.now) uses.now (body_held body.now)) }
    ensures blocks { IfOk result (λ of. HasFileBlocks (B.disk disk.now) (fate_held of)) }
{
    match body {
        Body::Inline(_) => Ok(FileBody::Inline),
        Body::Chain { head, size } => {
            if *size == 0 {
                let blocks = Vec::new(alloc);
                return Ok(FileBody::Chain {
                    head: *head,
                    blocks,
                    size: *size,
                });
            }
            head_body(alloc, disk, uses, *head, *size)
        }
        Body::Directory(..) => Ok(FileBody::Passed),
    }
}

/// What becomes of an entry, where blocks are used so: a file is saved, of its bytes in the entry or of its chain; or it is saved already,
/// where its last block is that of a file of as many bytes; or it is lost, with `BadSkipList` where it has no chain, and with `BlockTwice`
/// where its last block, or another one of its chain, is in use. What is no file is passed over. Takes memory.
pub(crate) fn file_of<B: Blocks>(
    alloc: Global,
    disk: &B,
    uses: &[BlockUse],
    entry: &Entry,
) -> Result<FileBody, AllocError>
    ensures fate { IfOk result (λ body. fate_held body ≡ fate (B.disk disk.now) uses.now entry.now) }
    ensures blocks { IfOk result (λ body. HasFileBlocks (B.disk disk.now) (fate_held body)) }
{
    match entry.kind {
        Kind::File => body_of(alloc, disk, uses, &entry.body),
        Kind::Dir => Ok(FileBody::Passed),
        Kind::Super => Ok(FileBody::Passed),
    }
}
