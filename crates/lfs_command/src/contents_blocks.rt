//! How many blocks a file's contents take.

ghost use Rattle.std.specs.Prelude.{◌≡◌, ◌<◌, ◌^◌, nat_le, if◌then◌else◌};
ghost use Rattle.lfs_block.specs.Geometry.{IsBlockSize};
ghost use Rattle.lfs_file.specs.Capacity.{least_blocks};
ghost use Rattle.lfs_command.specs.Supplies.{inline_limit, most_inline};

use lfs_file::blocks_for;
use lfs_fs::MOST_HELD;

/// The most bytes of a file that stand in its entry, in blocks of this size.
pub fn most_inline(size: u32) -> u32
    ensures { result ≡ most_inline size }
{
    (size / 8).min(MOST_HELD)
}

/// The most bytes of a file that stand in its entry, in blocks of this size, if a command gives a bound.
pub fn inline_limit(size: u32, most: u32) -> u32
    ensures { result ≡ inline_limit size most }
{
    most_inline(size).min(most)
}

/// How many blocks a file of `len` bytes takes beside its entry, with this bound: none if it stands there.
pub(crate) fn data_count(size: u32, len: usize, most: u32) -> u32
    requires size { IsBlockSize size }
    requires len { len < 2 ^ 32 }
    ensures { result ≡ (if nat_le len (inline_limit size most) then 0 else least_blocks size len) }
{
    if len <= inline_limit(size, most) as usize {
        0
    } else {
        blocks_for(len as u32, size)
    }
}
