//! The blocks of an image that are used.

ghost use Rattle.std.specs.Prelude.{◌≡◌, ◌<◌, ◌≤◌, ◌^◌, length, take, IfOk};
ghost use Rattle.lfs_fs.specs.Unused.{unused};
ghost use Rattle.lfs_fs.specs.Used.{AreMarkedBelow};

use crate::used::{mark_all, unmark};
use std::alloc::{AllocError, Global};
use std::marker::Model;

/// The blocks of an image that are used. Its meaning is a table with one flag a block. It keeps how many aren't used, and a block
/// below which all are.
#[derive(Drop)]
pub struct UsedBlocks {
    flags: Vec<bool>,
    free: u32,
    lowest: usize,
}

impl Model for UsedBlocks {
    ghost use Rattle.std.specs.Prelude.{Bool, List};
    ghost use Rattle.lfs_fs.specs.Used.{IsTallied};

    ghost Value = { List Bool };

    ghost view = { λ u. u.flags.items };

    ghost invariant = { λ u. IsTallied u.flags.items u.free u.lowest };
}

/// The `n` least blocks whose flags aren't set.
fn lowest_unused(
    alloc: Global,
    used: &[bool],
    lowest: usize,
    n: u32,
) -> Result<Vec<u32>, AllocError>
    requires flags { length used.now < 2 ^ 32 }
    requires below { AreMarkedBelow lowest used.now }
    requires enough { n ≤ length (unused used.now) }
    ensures { IfOk result (λ blocks. blocks.items ≡ take n (unused used.now)) }
{
    let mut found = Vec::with_capacity(alloc, n as usize)?;
    for block in lowest..used.len() {
        if found.len() == n as usize {
            break;
        }
        if !used[block] {
            found.push(block as u32)?;
        }
    }
    Ok(found)
}

/// The first block from `lowest` on whose flag isn't set, or the number of flags.
fn first_unused(used: &[bool], lowest: usize) -> usize
    requires { AreMarkedBelow lowest used.now }
    ensures { AreMarkedBelow result used.now }
{
    for block in lowest..used.len() {
        if !used[block] {
            return block;
        }
    }
    used.len()
}

impl UsedBlocks {
    ghost use Rattle.std.specs.Prelude.{◌≡◌, ◌<◌, ◌≤◌, ◌^◌, [], ◌∷◌, length, take, IfSome};
    ghost use Rattle.lfs_fs.specs.Unused.{unused};
    ghost use Rattle.lfs_fs.specs.Used.{AddsBlocks, AreMarked, CanBeMarked};

    /// The table with these flags, one a block.
    pub(crate) fn new(flags: Vec<bool>) -> UsedBlocks
        requires { length flags.items < 2 ^ 32 }
        ensures { result ≡ flags.items }
    {
        let free = flags.iter().filter(|used| !**used).count() as u32;
        let lowest = first_unused(&flags, 0);
        UsedBlocks {
            flags,
            free,
            lowest,
        }
    }

    /// The flags, one a block: whether it is used.
    pub fn flags(&self) -> &[bool]
        ensures { result.now ≡ self.now }
    {
        &self.flags
    }

    /// The number of blocks that aren't used.
    pub fn free_count(&self) -> u32
        ensures { result ≡ length (unused self.now) }
    {
        self.free
    }

    /// The `n` least blocks that aren't used, rising. `None` says only that a growth was refused.
    pub fn lowest_free(&self, alloc: Global, n: u32) -> Option<Vec<u32>>
        requires { n ≤ length (unused self.now) }
        ensures { IfSome result (λ blocks. blocks.items ≡ take n (unused self.now)) }
    {
        lowest_unused(alloc, &self.flags, self.lowest, n).ok()
    }

    /// Marks blocks.
    pub fn take(&mut self, blocks: &[u32])
        requires { CanBeMarked self.old blocks.now }
        ensures { AddsBlocks self.old self.new blocks.now }
    {
        match mark_all(&mut self.flags, blocks) {
            Ok(()) => {
                self.free -= blocks.len() as u32;
                self.lowest = first_unused(&self.flags, self.lowest);
            }
            Err(_) => unreachable!(),
        }
    }

    /// Takes the mark off a block.
    fn give_one(&mut self, block: u32)
        requires { AreMarked self.old (block ∷ []) }
        ensures { AddsBlocks self.new self.old (block ∷ []) }
    {
        unmark(&mut self.flags, block);
        self.free += 1;
        self.lowest = self.lowest.min(block as usize);
    }

    /// Takes the marks off blocks.
    pub fn give_back(&mut self, blocks: &[u32])
        requires { AreMarked self.old blocks.now }
        ensures { AddsBlocks self.new self.old blocks.now }
    {
        'each: for block in blocks {
            self.give_one(*block);
        }
    }
}
