//! An image in memory.

use crate::blocks::Blocks;
use crate::erased::ERASED;
use crate::geometry::{
    BLOCK_SIZE_STEP, MAX_BLOCK_COUNT, MAX_BLOCK_SIZE, MIN_BLOCK_SIZE, geometry_ok,
};
use crate::image_fault::ImageFault;
use std::marker::Model;
use std::ops::Range;

/// An image: its bytes, cut into blocks of one size, and the room that it has in memory, in blocks. Its meaning is a `Medium`:
/// a `Disk` whose geometry is within the limits, and that room, which is at least the number of its blocks.
///
/// Source: littlefs disk version 2.0.
#[derive(Drop)]
pub struct Image {
    bytes: Vec<u8>,
    size: u32,
    count: u32,
    room: u32,
}

impl Model for Image {
    ghost use Rattle.std.specs.Prelude.{vec_capacity};
    ghost use Rattle.lfs_block.specs.Medium.{Medium, IsHeldIn};

    ghost Value = { Medium };

    ghost view = { λ image. record { disk = record { size = image.size; count = image.count; bytes = image.bytes.items }; room = image.room } };

    ghost invariant = { λ image. IsHeldIn (vec_capacity image.bytes) (record { disk = record { size = image.size; count = image.count; bytes = image.bytes.items }; room = image.room }) };
}

impl Image {
    ghost use Rattle.std.specs.Prelude.{◌≡◌, ◌<◌, ◌≤◌, ◌+◌, ◌*◌, length, IfOk, IfErr};
    ghost use Rattle.lfs_block.specs.Disk.{IsDisk, put, resized};
    ghost use Rattle.lfs_block.specs.Geometry.{IsGeometry};
    ghost use Rattle.lfs_block.specs.ImageFault.{IsNoImage};
    ghost use Rattle.lfs_block.specs.Medium.{IsMedium, Reserves};

    /// The image of `bytes`, cut into blocks of `size` bytes. A refusal hands the bytes back: `BadGeometry` where the
    /// size is out of its limit, then `ImageLength` where the length is no multiple of it, then `BadGeometry` where the
    /// number of blocks or the length is out of its limit.
    pub fn new(bytes: Vec<u8>, size: u32) -> Result<Image, (ImageFault, Vec<u8>)>
        ensures disk { IfOk result (λ image. IsDisk image.disk) }
        ensures size { IfOk result (λ image. image.disk.size ≡ size) }
        ensures bytes { IfOk result (λ image. image.disk.bytes ≡ bytes.items) }
        ensures medium { IfOk result (λ image. IsMedium image) }
        ensures cause { IfErr result (λ refused. IsNoImage refused.0 size bytes.items) }
        ensures handed_back { IfErr result (λ refused. refused.1 ≡ bytes) }
    {
        let size_fits = (MIN_BLOCK_SIZE..=MAX_BLOCK_SIZE).contains(&size)
            && size % BLOCK_SIZE_STEP == 0;
        if !size_fits {
            return Err((ImageFault::BadGeometry, bytes));
        }
        if bytes.len() % size as usize != 0 {
            return Err((ImageFault::ImageLength, bytes));
        }
        let count = bytes.len() / size as usize;
        if count > MAX_BLOCK_COUNT as usize || !geometry_ok(size, count as u32) {
            return Err((ImageFault::BadGeometry, bytes));
        }
        Ok(Image {
            bytes,
            size,
            count: count as u32,
            room: count as u32,
        })
    }

    /// The number of blocks up to which the image is lengthened without memory: at least as many as it has.
    pub fn room(&self) -> u32
        ensures value { result ≡ self.now.room }
        ensures medium { IsMedium self.now }
    {
        self.room
    }

    /// Makes room for `count` blocks, and takes no memory beyond theirs. False where memory is refused, which changes nothing.
    pub fn reserve(&mut self, count: u32) -> bool
        requires { IsGeometry self.old.disk.size count }
        ensures { Reserves count result self.old self.new }
    {
        if count <= self.room {
            return true;
        }
        let length = count as usize * self.size as usize;
        if self.bytes.reserve_exact(length - self.bytes.len()).is_err() {
            return false;
        }
        self.room = count;
        true
    }

    /// Cuts the image to `count` blocks, or lengthens it by erased ones.
    pub(crate) fn resize(&mut self, count: u32)
        requires geometry { IsGeometry self.old.disk.size count }
        requires room { count ≤ self.old.room }
        ensures disk { self.new.disk ≡ resized count self.old.disk }
        ensures room { self.new.room ≡ self.old.room }
    {
        let length = count as usize * self.size as usize;
        let filled = self.bytes.resize(length, ERASED);
        prove!(filled.is_ok());
        self.count = count;
    }

    /// Where block `n` stands in the bytes.
    fn place_of(&self, n: u32) -> Range<usize>
        requires { n < self.now.disk.count }
        ensures disk { IsDisk self.now.disk }
        ensures start { result.start ≡ n * self.now.disk.size }
        ensures end { result.end ≡ n * self.now.disk.size + self.now.disk.size }
        ensures within { result.end ≤ length self.now.disk.bytes }
    {
        let start = n as usize * self.size as usize;
        start..start + self.size as usize
    }

    /// Writes `bytes` over block `n`.
    pub fn write_block(&mut self, n: u32, bytes: &[u8])
        requires within { n < self.old.disk.count }
        requires complete { length bytes.now ≡ self.old.disk.size }
        ensures disk { self.new.disk ≡ put n bytes.now self.old.disk }
        ensures room { self.new.room ≡ self.old.room }
    {
        let place = self.place_of(n);
        self.bytes[place].copy_from_slice(bytes);
    }

    /// The image's bytes.
    pub fn into_bytes(self) -> Vec<u8>
        ensures { result.items ≡ self.disk.bytes }
    {
        let Image {
            bytes,
            size: _,
            count: _,
            room: _,
        } = self;
        bytes
    }
}

impl Blocks for Image {
    ghost disk = { λ image. image.disk };

    fn size(&self) -> u32 {
        self.size
    }

    fn count(&self) -> u32 {
        self.count
    }

    fn block(&self, n: u32) -> &[u8] {
        &self.bytes[self.place_of(n)]
    }
}
