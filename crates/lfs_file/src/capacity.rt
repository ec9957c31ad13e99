//! How many blocks a file takes.

ghost use Rattle.std.specs.Prelude.{◌≡◌};
ghost use Rattle.lfs_block.specs.Geometry.{IsBlockSize};
ghost use Rattle.lfs_file.specs.Capacity.{capacity, least_blocks, pointers};

/// The pointers in front of block `n` of a file.
pub(crate) fn pointers_of(n: u32) -> u32
    ensures { result ≡ pointers n }
{
    if n == 0 { 0 } else { n.trailing_zeros() + 1 }
}

/// The bytes of a file in block `n`.
pub(crate) fn capacity_of(block_size: u32, n: u32) -> u32
    requires { IsBlockSize block_size }
    ensures { result ≡ capacity block_size n }
{
    block_size - 4 * pointers_of(n)
}

/// The least number of blocks that hold a file of `len` bytes, in blocks of `block_size` bytes. Takes no memory, and
/// the same time for every length.
///
/// Source: DESIGN.md, "CTZ skip-lists".
pub fn blocks_for(len: u32, block_size: u32) -> u32
    requires { IsBlockSize block_size }
    ensures { result ≡ least_blocks block_size len }
{
    if len == 0 {
        return 0;
    }
    if len <= block_size {
        return 1;
    }
    // n blocks hold n times this, 8 bytes, and 4 for each bit of n - 1 that is 1: those are less than a block's share
    let share = block_size - 8;
    let complete = (len - 9) / share;
    let over = (len - 9) % share;
    if over < 4 * (complete - 1).count_ones() {
        complete
    } else {
        complete + 1
    }
}
