//! The parts of an outline that a command sets: whether an entry of one is too large.

ghost use Rattle.std.specs.Prelude.{◌≡◌, ◌≤◌, nat_lt};
ghost use Rattle.std.specs.List.{list_any};
ghost use Rattle.lfs_fs.specs.Weight.{weight};
ghost use Rattle.lfs_law.specs.OutlineCarried.{has_too_large};
ghost use Rattle.lfs_cut.specs.Front.{IsCleanFrom};
ghost use Rattle.lfs_cut.specs.SetParts.{has_too_large_by, is_set_too_large, is_too_large_by};

use crate::block_room::{BlockRoom, block_room, is_root};
use crate::front::in_front;
use crate::weighing::weight;
use lfs_fs::{Outline, OutlineDirectory, OutlineEntry, OutlinePart};

/// Whether an entry weighs more than the room.
fn has_heavier(entries: &[OutlineEntry], room: u32) -> bool
    ensures { result ≡ list_any (λ e. nat_lt room (weight e)) entries.now }
{
    entries.iter().any(|entry| weight(entry) > room)
}

/// Whether an entry of a part, the superblock among them, weighs more than a block has room for.
fn is_too_large(room: BlockRoom, part: &OutlinePart) -> bool
    ensures { result ≡ is_too_large_by room.bytes room.superblock part.now }
{
    is_root(part.pair) && room.superblock > room.bytes || has_heavier(&part.entries, room.bytes)
}

/// Whether a part is set, and has too large an entry.
fn is_set_too_large(room: BlockRoom, part: &OutlinePart) -> bool
    ensures { result ≡ is_set_too_large room.bytes room.superblock part.now }
{
    part.dirty && is_too_large(room, part)
}

/// Whether some part is set, and has too large an entry.
fn any_too_large(room: BlockRoom, parts: &[OutlinePart]) -> bool
    ensures { result ≡ list_any (is_set_too_large room.bytes room.superblock) parts.now }
{
    parts.iter().any(|part| is_set_too_large(room, part))
}

/// Whether some part of a directory is set, and has too large an entry.
fn directory_too_large(room: BlockRoom, directory: &OutlineDirectory) -> bool
    ensures { result ≡ has_too_large_by room.bytes room.superblock directory.now }
{
    is_set_too_large(room, &directory.parts.first) || any_too_large(room, &directory.parts.more)
}

/// Whether some part of directories is set, and has too large an entry.
fn any_directory_too_large(room: BlockRoom, directories: &[OutlineDirectory]) -> bool
    ensures { result ≡ list_any (has_too_large_by room.bytes room.superblock) directories.now }
{
    directories
        .iter()
        .any(|directory| directory_too_large(room, directory))
}

/// Whether some part that is set has an entry, the superblock among them, that weighs more than a block has room for.
pub(crate) fn has_too_large(outline: &Outline, front: usize) -> bool
    requires size { outline.now.size ≤ 65536 }
    requires front { IsCleanFrom front outline.now.directories }
    ensures { result ≡ has_too_large outline.now }
{
    any_directory_too_large(block_room(outline), in_front(&outline.directories, front))
}
