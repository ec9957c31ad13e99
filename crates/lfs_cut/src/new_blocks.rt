//! How many new blocks the parts that a command sets need.

ghost use Rattle.std.specs.Prelude.{◌≡◌, ◌≤◌, min, sum_by};
ghost use Rattle.lfs_command.specs.Need.{dirty_parts, part_blocks};
ghost use Rattle.lfs_cut.specs.Front.{IsCleanFrom};
ghost use Rattle.lfs_cut.specs.SetParts.{blocks_set, set_blocks_of};

use crate::block_room::{BlockRoom, block_room};
use crate::front::in_front;
use crate::runs::part_runs;
use lfs_fs::{Outline, OutlineDirectory, OutlinePart};

/// The new blocks of a part: two for each run behind the first, where the part is set. At most 2^64 - 1.
fn part_blocks(room: BlockRoom, part: &OutlinePart) -> u64
    ensures { result ≡ min u64.MAX (blocks_set room.bytes room.superblock part.now) }
{
    if !part.dirty {
        return 0;
    }
    let more = part_runs(room, part).saturating_sub(1) as u64;
    more.saturating_mul(2)
}

/// The new blocks of parts. At most 2^64 - 1.
fn blocks_of_parts(room: BlockRoom, parts: &[OutlinePart]) -> u64
    ensures { result ≡ min u64.MAX (sum_by (blocks_set room.bytes room.superblock) parts.now) }
{
    let mut sum: u64 = 0;
    'each: for part in parts {
        sum = sum.saturating_add(part_blocks(room, part));
    }
    sum
}

/// The new blocks of the parts of a directory. At most 2^64 - 1.
fn directory_blocks(room: BlockRoom, directory: &OutlineDirectory) -> u64
    ensures { result ≡ min u64.MAX (set_blocks_of room.bytes room.superblock directory.now) }
{
    let first = part_blocks(room, &directory.parts.first);
    first.saturating_add(blocks_of_parts(room, &directory.parts.more))
}

/// The new blocks of the parts of directories. At most 2^64 - 1.
fn blocks_of_directories(room: BlockRoom, directories: &[OutlineDirectory]) -> u64
    ensures { result ≡ min u64.MAX (sum_by (set_blocks_of room.bytes room.superblock) directories.now) }
{
    let mut sum: u64 = 0;
    'each: for directory in directories {
        sum = sum.saturating_add(directory_blocks(room, directory));
    }
    sum
}

/// The new blocks of the parts that are set: two for each run behind a part's first. At most 2^64 - 1, which is more than any image
/// has.
pub(crate) fn new_blocks(outline: &Outline, front: usize) -> u64
    requires size { outline.now.size ≤ 65536 }
    requires front { IsCleanFrom front outline.now.directories }
    ensures { result ≡ min u64.MAX (sum_by (part_blocks outline.now) (dirty_parts outline.now)) }
{
    blocks_of_directories(block_room(outline), in_front(&outline.directories, front))
}
