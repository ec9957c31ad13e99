//! The chain of a file: its blocks, found from the last one on.

ghost use Rattle.std.specs.Prelude.{◌≡◌, ◌<◌, ◌≤◌, ◌^◌, length, slice_index, All, IfOk, IfErr, IfNone, IfSome, Some};
ghost use Rattle.lfs_block.specs.Disk.{IsDisk};
ghost use Rattle.lfs_file.specs.Capacity.{least_blocks};
ghost use Rattle.lfs_file.specs.SkipList.{IsChain, ChainCause, ChainWalkCause, chain_of, is_linked, is_linked_at, points_back, walk};

use crate::capacity::{blocks_for, pointers_of};
use crate::pointer::pointer_at;
use lfs_block::{Blocks, MountFault};
use std::alloc::Global;

/// How many blocks a file of `len` bytes takes, if the disk has so many.
fn count_within<B: Blocks>(blocks: &B, len: u32) -> Option<u32>
    ensures disk { IsDisk (B.disk blocks.now) }
    ensures count { IfSome result (λ n. n ≡ least_blocks (B.disk blocks.now).size len) }
    ensures within { IfSome result (λ n. n ≤ (B.disk blocks.now).count) }
    ensures longer { IfNone result ((B.disk blocks.now).count < least_blocks (B.disk blocks.now).size len) }
{
    let count = blocks_for(len, blocks.size());
    (count <= blocks.count()).then_some(count)
}

/// `count` blocks, of which the last is `head`, and each names the one before it by its first pointer.
fn walk_back<B: Blocks>(
    alloc: Global,
    blocks: &B,
    head: u32,
    count: u32,
) -> Result<Vec<u32>, MountFault>
    requires disk { IsDisk (B.disk blocks.now) }
    ensures found { IfOk result (λ chain. chain.items ≡ walk (B.disk blocks.now) head count) }
    ensures below { IfOk result (λ chain. All (λ b. b < (B.disk blocks.now).count) chain.items) }
    ensures refused { IfErr result (λ fault. ChainWalkCause fault (B.disk blocks.now) head count) }
{
    let mut chain = Vec::with_capacity(alloc, count as usize).map_err(|_| MountFault::Memory)?;
    let mut block = head;
    for _ in 0..count {
        if block >= blocks.count() {
            return Err(MountFault::BadSkipList);
        }
        chain.push(block).map_err(|_| MountFault::Memory)?;
        block = pointer_at(blocks.block(block), 0);
    }
    chain.reverse();
    Ok(chain)
}

/// Whether each pointer of block `n` of a chain names the block that it has to.
fn points_back<B: Blocks>(blocks: &B, chain: &[u32], n: usize) -> bool
    requires disk { IsDisk (B.disk blocks.now) }
    requires within { n < length chain.now }
    requires few { length chain.now < 2 ^ 32 }
    requires below { slice_index chain.now n < (B.disk blocks.now).count }
    ensures { result ≡ points_back (B.disk blocks.now) chain.now n }
{
    let block = blocks.block(chain[n]);
    for i in 0..pointers_of(n as u32) as usize {
        if pointer_at(block, i) != chain[n - (1 << i)] {
            return false;
        }
    }
    true
}

/// Whether block `n` of a chain is not block 0 again, and points back as it has to.
#[tactic(auto, unfolding(crate::specs::SkipList::is_linked_at))]
fn is_linked_at<B: Blocks>(blocks: &B, chain: &[u32], n: usize) -> bool
    requires disk { IsDisk (B.disk blocks.now) }
    requires within { n < length chain.now }
    requires few { length chain.now < 2 ^ 32 }
    requires below { slice_index chain.now n < (B.disk blocks.now).count }
    ensures { result ≡ is_linked_at (B.disk blocks.now) chain.now n }
{
    (n == 0 || chain[n] != chain[0]) && points_back(blocks, chain, n)
}

/// Whether every block of a chain is so. Then no block stands twice, since two equal blocks have equal blocks before
/// them, down to block 0.
fn is_linked<B: Blocks>(blocks: &B, chain: &[u32]) -> bool
    requires disk { IsDisk (B.disk blocks.now) }
    requires few { length chain.now < 2 ^ 32 }
    requires below { All (λ b. b < (B.disk blocks.now).count) chain.now }
    ensures { result ≡ is_linked (B.disk blocks.now) chain.now }
{
    for n in 0..chain.len() {
        if !is_linked_at(blocks, chain, n) {
            return false;
        }
    }
    true
}

/// The blocks of a file of `len` bytes whose last block is `head`, from block 0 on. `BadSkipList` where the disk holds
/// no such chain: a pointer is wrong, a block is past the disk's end or stands twice, or the file is longer than the
/// disk. Takes memory for the blocks' numbers, for no more of them than the disk has.
///
/// Source: DESIGN.md, "CTZ skip-lists".
pub fn chain<B: Blocks>(
    alloc: Global,
    blocks: &B,
    head: u32,
    len: u32,
) -> Result<Vec<u32>, MountFault>
    ensures found { IfOk result (λ chain. IsChain (B.disk blocks.now) head len chain.items) }
    ensures computed { IfOk result (λ chain. chain_of (B.disk blocks.now) head len ≡ Some chain.items) }
    ensures refused { IfErr result (λ fault. ChainCause fault (B.disk blocks.now) head len) }
{
    let Some(count) = count_within(blocks, len) else {
        return Err(MountFault::BadSkipList);
    };
    let chain = walk_back(alloc, blocks, head, count)?;
    if !is_linked(blocks, &chain) {
        return Err(MountFault::BadSkipList);
    }
    Ok(chain)
}
