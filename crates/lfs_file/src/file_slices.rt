//! The contents of a file, a slice for each of its blocks.

ghost use Rattle.std.specs.Prelude.{◌≡◌, ◌<◌, ◌≤◌, length, All};
ghost use Rattle.std.specs.List.{concat};
ghost use Rattle.std.specs.Iterator.{YieldsFirstRef, item_count};
ghost use Rattle.lfs_file.specs.Content.{content};

use crate::capacity::pointers_of;
use lfs_block::Blocks;
use std::marker::Model;

/// The contents of a file in order, a slice for each of its blocks: what the block holds behind its pointers, cut
/// where the file ends. It stands for the list of the slices that are left.
#[derive(Drop)]
pub struct FileSlices<'a, B: Blocks> {
    disk: &'a B,
    chain: &'a [u32],
    number: u32,
    left: usize,
}

impl<'a, B: Blocks> Model for FileSlices<'a, B> {
    ghost use Rattle.std.specs.Prelude.{ℕ, ◌+◌, ◌<◌, ◌≤◌, List, All, length};
    ghost use Rattle.lfs_file.specs.Content.{slices_from};

    ghost Value = { List (List ℕ) };

    ghost view = { λ s. slices_from (B.disk s.disk.now) s.number s.left s.chain.now };

    ghost invariant = { λ s. All (λ b. b < (B.disk s.disk.now).count) s.chain.now × (s.number + length s.chain.now ≤ (B.disk s.disk.now).count) };
}

impl<'a, B: Blocks> Iterator for FileSlices<'a, B> {
    ghost use Rattle.std.specs.Iterator.{YieldsFirstRef, item_count};

    type Item = &'a [u8];

    ghost next_gives = { YieldsFirstRef (λ left. left) };

    ghost remaining = { item_count (λ left. left) };

    fn next(&mut self) -> Option<&'a [u8]> {
        let Some((&block, later)) = self.chain.split_first() else {
            return None;
        };
        let start = 4 * pointers_of(self.number) as usize;
        let room = self.disk.size() as usize - start;
        let slice = &self.disk.block(block)[start..start + room.min(self.left)];
        self.chain = later;
        self.number += 1;
        self.left = self.left.saturating_sub(room);
        Some(slice)
    }
}

/// The contents of a file of `len` bytes in the blocks of `chain`, in slices. Nothing is copied, and no memory is
/// taken.
///
/// Source: DESIGN.md, "CTZ skip-lists".
pub fn read_file<'a, B: Blocks>(blocks: &'a B, chain: &'a [u32], len: u32) -> FileSlices<'a, B>
    requires below { All (λ b. b < (B.disk blocks.now).count) chain.now }
    requires few { length chain.now ≤ (B.disk blocks.now).count }
    ensures joined { concat result ≡ content (B.disk blocks.now) len chain.now }
    ensures count { length result ≡ length chain.now }
{
    FileSlices {
        disk: blocks,
        chain,
        number: 0,
        left: len as usize,
    }
}
