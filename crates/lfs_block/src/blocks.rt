//! What all readers of an image stand on: numbered blocks of one size.

/// A disk of numbered blocks, all of one size. Its meaning is one list of bytes, of which block `n` is the
/// `n`-th slice. No method takes memory.
///
/// Source: littlefs disk version 2.0.
pub trait Blocks {
    ghost use Rattle.std.specs.Prelude.{◌≡◌, ◌<◌};
    ghost use Rattle.lfs_block.specs.Disk.{Disk, IsDisk, block_of};

    /// The disk that the value stands for.
    ghost disk: { Self → Disk };

    /// The block size, in bytes.
    fn size(&self) -> u32
        ensures value { result ≡ (disk self.now).size }
        ensures disk { IsDisk (disk self.now) };

    /// The number of blocks.
    fn count(&self) -> u32
        ensures { result ≡ (disk self.now).count };

    /// Block `n`.
    fn block(&self, n: u32) -> &[u8]
        requires { n < (disk self.now).count }
        ensures { result.now ≡ block_of (disk self.now) n };
}
