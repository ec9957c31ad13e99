//! An exact change of an image, and its reverse.

ghost use Rattle.std.specs.Prelude.{◌↔◌, IsTrue};
ghost use Rattle.lfs_block.specs.Patch.{FindsAt};

use crate::blocks::Blocks;
use crate::erased::is_erased;
use crate::image::Image;
use crate::record::{Record, record_of};
use crate::side::Side;
use std::marker::Model;

/// Whether `bytes` are block `number` of the image, or it has no such block.
fn finds(image: &Image, number: u32, bytes: &[u8]) -> bool
    ensures { IsTrue result ↔ FindsAt image.now.disk number bytes.now }
{
    number >= image.count() || image.block(number) == bytes
}

/// An exact change of an image: the blocks that a command writes, at least one, rising by number, each with its bytes
/// before and after, and the number of the image's blocks before and after, of which the second isn't less. A block that is
/// written with the bytes that it has is one of them. A block that is added is erased before; where it isn't one of them, it
/// stays so.
#[derive(Drop)]
pub struct Patch {
    size: u32,
    before: u32,
    after: u32,
    records: Vec<Record>,
}

impl Model for Patch {
    ghost use Rattle.lfs_block.specs.Patch.{ChangeSet, IsGrowth};

    ghost Value = { ChangeSet };

    ghost view = { λ p. record { size = p.size; before = p.before; after = p.after; changes = p.records.items } };

    ghost invariant = { λ p. IsGrowth (record { size = p.size; before = p.before; after = p.after; changes = p.records.items }) };
}

impl Patch {
    ghost use Rattle.std.specs.Prelude.{◌≡◌, ◌↔◌, ◌<◌, ◌≤◌, None, IsTrue};
    ghost use Rattle.std.specs.List.{AllByRecursion};
    ghost use Rattle.lfs_block.specs.Change.{change_of};
    ghost use Rattle.lfs_block.specs.Disk.{block_of, erased_block};
    ghost use Rattle.lfs_block.specs.Overlay.{count_of, side_of};
    ghost use Rattle.lfs_block.specs.Patch.{IsGrowth, AgreesOld, AgreesNew, FindsAt, LeavesErased, applied, reverted};
    ghost use Rattle.lfs_block.specs.PatchLaws.{IsDiskOf};

    /// The patch of `records`, of an image whose blocks have `size` bytes, and that has `before` blocks before and `after` then.
    pub fn of(size: u32, before: u32, after: u32, records: Vec<Record>) -> Patch
        requires { IsGrowth (record { size = size; before = before; after = after; changes = records.items }) }
        ensures { result ≡ record { size = size; before = before; after = after; changes = records.items } }
    {
        Patch {
            size,
            before,
            after,
            records,
        }
    }

    /// The size of the image's blocks, in bytes.
    pub fn size(&self) -> u32
        ensures value { result ≡ self.now.size }
    {
        self.size
    }

    /// The number of the image's blocks before.
    pub fn before(&self) -> u32
        ensures value { result ≡ self.now.before }
    {
        self.before
    }

    /// The number of the image's blocks after.
    pub fn after(&self) -> u32
        ensures value { result ≡ self.now.after }
    {
        self.after
    }

    /// The number of the image's blocks on one side of the patch.
    pub(crate) fn count(&self, side: Side) -> u32
        ensures { result ≡ count_of side self.now }
    {
        match side {
            Side::Old => self.before,
            Side::New => self.after,
        }
    }

    /// The changes, rising by block number.
    pub fn records(&self) -> &[Record]
        ensures growth { IsGrowth self.now }
        ensures changes { result.now ≡ self.now.changes }
    {
        self.records.as_slice()
    }

    /// Whether the image's blocks have the patch's size, and are as many as on one side.
    fn has_geometry_of(&self, image: &Image, side: Side) -> bool
        ensures { IsTrue result ↔ ((self.now.size ≡ image.now.disk.size) × (count_of side self.now ≡ image.now.disk.count)) }
    {
        self.size == image.size() && self.count(side) == image.count()
    }

    /// Whether each block of the image that the patch names holds the bytes of one side.
    fn finds(&self, image: &Image, side: Side) -> bool
        ensures growth { IsGrowth self.now }
        ensures found { IsTrue result ↔ AllByRecursion (λ c. FindsAt image.now.disk c.number (side_of side c)) self.now.changes }
    {
        self.records
            .iter()
            .all(|record| finds(image, record.number, record.side(side)))
    }

    /// Whether block `n` of the image is erased, or the patch names it.
    fn names_or_finds_erased(&self, image: &Image, n: u32) -> bool
        requires { n < image.now.disk.count }
        ensures { IsTrue result ↔ (change_of n self.now.changes ≡ None → block_of image.now.disk n ≡ erased_block image.now.disk.size) }
    {
        prove!(image.count() <= image.room());
        record_of(&self.records, n).is_some() || is_erased(image.block(n))
    }

    /// Whether each block that the patch adds is erased, or one that the patch names.
    fn leaves_erased(&self, image: &Image) -> bool
        requires { self.now.after ≡ image.now.disk.count }
        ensures { IsTrue result ↔ LeavesErased self.now image.now.disk }
    {
        for n in self.before..self.after {
            if !self.names_or_finds_erased(image, n) {
                return false;
            }
        }
        true
    }

    /// Whether the image is what the patch was made of: its blocks have the patch's size, and are as many as before, and each
    /// of them that the patch names holds the bytes from before.
    pub fn agrees_old(&self, image: &Image) -> bool
        ensures { IsTrue result ↔ AgreesOld self.now image.now.disk }
    {
        self.has_geometry_of(image, Side::Old) && self.finds(image, Side::Old)
    }

    /// Whether the image is what the patch makes: its blocks have the patch's size, and are as many as after, each of them
    /// that the patch names holds the bytes from after, and each that it adds and doesn't name is erased.
    pub fn agrees_new(&self, image: &Image) -> bool
        ensures { IsTrue result ↔ AgreesNew self.now image.now.disk }
    {
        self.has_geometry_of(image, Side::New)
            && self.finds(image, Side::New)
            && self.leaves_erased(image)
    }

    /// Lengthens the image by erased blocks to as many as after, and writes the bytes from after into each block that the
    /// patch names.
    pub fn apply(&self, image: &mut Image)
        requires agrees { AgreesOld self.now image.old.disk }
        requires room { self.now.after ≤ image.old.room }
        ensures applied { image.new.disk ≡ applied self.now image.old.disk }
        ensures disk { IsDiskOf self.now.size self.now.after image.new.disk }
        ensures room { image.new.room ≡ image.old.room }
    {
        prove!(image.size() == self.size);
        image.resize(self.after);
        for record in &self.records {
            image.write_block(record.number, &record.new);
        }
    }

    /// Writes the bytes from before into each block that the patch names, and cuts the image to as many blocks as before.
    pub fn revert(&self, image: &mut Image)
        requires { AgreesNew self.now image.old.disk }
        ensures reverted { image.new.disk ≡ reverted self.now image.old.disk }
        ensures disk { IsDiskOf self.now.size self.now.before image.new.disk }
        ensures room { image.new.room ≡ image.old.room }
    {
        prove!(image.count() <= image.room());
        for record in &self.records {
            image.write_block(record.number, &record.old);
        }
        image.resize(self.before);
    }
}
