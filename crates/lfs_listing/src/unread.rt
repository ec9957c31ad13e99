//! The bytes of a file that are not read yet.

ghost use Rattle.std.specs.Prelude.{◌≡◌};

use lfs_block::Blocks;
use lfs_file::{FileSlices, read_file};
use std::marker::Model;

/// The bytes of a file that are not read yet. Its meaning is their list.
#[derive(Drop)]
pub(crate) struct Unread<'a, B: Blocks> {
    slice: &'a [u8],
    later: FileSlices<'a, B>,
}

impl<'a, B: Blocks> Model for Unread<'a, B> {
    ghost use Rattle.std.specs.Prelude.{ℕ, List, ◌++◌};
    ghost use Rattle.std.specs.List.{concat};

    ghost Value = { List ℕ };

    ghost view = { λ u. u.slice.now ++ concat u.later };
}

impl<'a, B: Blocks> Unread<'a, B> {
    ghost use Rattle.std.specs.Prelude.{◌≡◌, ◌<◌, ◌≤◌, All, length};
    ghost use Rattle.lfs_file.specs.Content.{content};
    ghost use Rattle.lfs_listing.specs.Comparing.{TakesOff};

    /// The bytes of a file that stand in its entry.
    pub(crate) fn of_bytes(disk: &'a B, bytes: &'a [u8]) -> Unread<'a, B>
        ensures { result ≡ bytes.now }
    {
        Unread {
            slice: bytes,
            later: read_file(disk, &[], 0),
        }
    }

    /// The bytes of a file of `size` bytes in these blocks.
    pub(crate) fn of_chain(disk: &'a B, blocks: &'a [u32], size: u32) -> Unread<'a, B>
        requires below { All (λ b. b < (B.disk disk.now).count) blocks.now }
        requires few { length blocks.now ≤ (B.disk disk.now).count }
        ensures { result ≡ content (B.disk disk.now) size blocks.now }
    {
        Unread {
            slice: &[],
            later: read_file(disk, blocks, size),
        }
    }

    /// Whether they begin with these, which are taken off then.
    pub(crate) fn takes(&mut self, bytes: &[u8]) -> bool
        ensures { TakesOff result self.old self.new bytes.now }
    {
        let mut rest = bytes;
        'rest: loop {
            if let Some(left) = self.slice.strip_prefix(rest) {
                self.slice = left;
                return true;
            }
            let Some(later) = rest.strip_prefix(self.slice) else {
                return false;
            };
            let Some(slice) = self.later.next() else {
                return false;
            };
            rest = later;
            self.slice = slice;
        }
    }
}
