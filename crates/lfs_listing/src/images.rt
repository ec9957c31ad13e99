//! Two images whose rows are compared.

use crate::naming::names_none;
use crate::reading::{begins_with, has_contents};
use crate::same_attributes::have_same_attributes;
use crate::unread::Unread;
use lfs_block::{Blocks, Patch, applied_patches_change_their_blocks};
use lfs_file::chains_stay_on_their_blocks;
use lfs_fs::{Row, RowBody};
use std::marker::Model;

/// Two images, with the patch that leads from the first to the second where it is known. Its meaning is their disks.
#[derive(Drop)]
pub(crate) struct Images<'a, A: Blocks, B: Blocks> {
    first: &'a A,
    second: &'a B,
    between: Option<&'a Patch>,
}

impl<'a, A: Blocks, B: Blocks> Model for Images<'a, A, B> {
    ghost use Rattle.std.specs.Prelude.{IfSome};
    ghost use Rattle.lfs_block.specs.Disk.{Disk};
    ghost use Rattle.lfs_listing.specs.Comparing.{Leads};

    ghost Value = { Disk × Disk };

    ghost view = { λ i. (A.disk i.first.now, B.disk i.second.now) };

    ghost invariant = { λ i. IfSome i.between (λ p. Leads p.now (A.disk i.first.now) (B.disk i.second.now)) };
}

impl<'a, A: Blocks, B: Blocks> Images<'a, A, B> {
    ghost use Rattle.std.specs.Prelude.{◌≡◌, ◌<◌, ℕ, All, IfSome, bytes_eq, true};
    ghost use Rattle.lfs_file.specs.Content.{content};
    ghost use Rattle.lfs_fs.specs.Entry.{Chain};
    ghost use Rattle.lfs_fs.specs.Outlined.{blank};
    ghost use Rattle.lfs_fs.specs.RowHeld.{row_body_held};
    ghost use Rattle.lfs_listing.specs.Comparing.{IsReadable, Leads, contents_of, same_contents};
    ghost use Rattle.lfs_listing.specs.Difference.{shows_same};

    /// Two images.
    pub(crate) fn new(first: &'a A, second: &'a B, between: Option<&'a Patch>) -> Images<'a, A, B>
        requires { IfSome between (λ p. Leads p.now (A.disk first.now) (B.disk second.now)) }
        ensures { result ≡ (A.disk first.now, B.disk second.now) }
    {
        Images {
            first,
            second,
            between,
        }
    }

    /// Whether the blocks of two files are the same, and are known to hold the same on both: the patch between the two names none
    /// of them.
    fn keeps(&self, blocks: &[u32], others: &[u32]) -> bool
        requires { All (λ b. b < self.now.0.count) blocks.now }
        ensures { result ≡ true → (size : ℕ) → content self.now.0 size blocks.now ≡ content self.now.1 size others.now }
    {
        chains_stay_on_their_blocks();
        applied_patches_change_their_blocks();
        let _size = self.first.size();
        let Some(patch) = self.between else {
            return false;
        };
        blocks == others && names_none(patch.records(), blocks)
    }

    /// Whether two files of `size` bytes have the same contents. They are read only where the blocks may hold others.
    fn have_same_contents(&self, blocks: &[u32], others: &[u32], size: u32) -> bool
        requires first { IsReadable self.now.0 (Chain blocks.now (blank size)) }
        requires second { IsReadable self.now.1 (Chain others.now (blank size)) }
        ensures { result ≡ bytes_eq (content self.now.0 size blocks.now) (content self.now.1 size others.now) }
    {
        if self.keeps(blocks, others) {
            return true;
        }
        let mut unread = Unread::of_chain(self.second, others, size);
        begins_with(&mut unread, self.first, blocks, size)
    }

    /// Whether two bodies are files with the same contents, or directories.
    fn have_same_bodies(&self, body: &RowBody<'_>, other: &RowBody<'_>) -> bool
        requires first { IsReadable self.now.0 (row_body_held body.now) }
        requires second { IsReadable self.now.1 (row_body_held other.now) }
        ensures { result ≡ same_contents (contents_of self.now.0 (row_body_held body.now))
            (contents_of self.now.1 (row_body_held other.now)) }
    {
        match (body, other) {
            (RowBody::Directory(..), RowBody::Directory(..)) => true,
            (RowBody::Inline(bytes), RowBody::Inline(others)) => bytes == others,
            (RowBody::Inline(bytes), RowBody::Chain { blocks, size }) => {
                has_contents(self.second, blocks, *size, bytes)
            }
            (RowBody::Chain { blocks, size }, RowBody::Inline(bytes)) => {
                has_contents(self.first, blocks, *size, bytes)
            }
            (
                RowBody::Chain { blocks, size },
                RowBody::Chain {
                    blocks: others,
                    size: length,
                },
            ) => size == length && self.have_same_contents(blocks, others, *size),
            (RowBody::Directory(..), _) | (_, RowBody::Directory(..)) => false,
        }
    }

    /// Whether two rows, one of each image, show the same.
    pub(crate) fn show_same(&self, row: &Row<'_>, other: &Row<'_>) -> bool
        requires first { IsReadable self.now.0 row.now.entry.body }
        requires second { IsReadable self.now.1 other.now.entry.body }
        ensures { result ≡ shows_same self.now.0 row.now.entry self.now.1 other.now.entry }
    {
        self.have_same_bodies(&row.body, &other.body)
            && have_same_attributes(row.attributes, other.attributes)
    }
}
