//! Which parts of an outline take more room than a block has.

ghost use Rattle.std.specs.Prelude.{◌≡◌, ◌+◌, ◌≤◌, ◌++◌, length};
ghost use Rattle.arrayvec.specs.ArrayVec.{array_vec_len};
ghost use Rattle.lfs_fs.specs.Directory.{parts, thread};
ghost use Rattle.lfs_command.specs.Ordered.{leader_first};
ghost use Rattle.lfs_cut.specs.Overflow.{overflow_of, overflows_of};

use crate::block_room::BlockRoom;
use crate::runs::part_runs;
use arrayvec::ArrayVec;
use lfs_fs::{OutlineDirectory, OutlinePart};

/// A part that takes more room than a block has.
#[derive(Clone, Copy, Default)]
pub(crate) struct Overflow {
    /// Its pair.
    pub(crate) pair: (u32, u32),
    /// The number of its new parts: of its runs behind the first.
    pub(crate) len: usize,
}

/// Notes a part, where it is set and has more than one run.
fn note(room: BlockRoom, part: &OutlinePart, overflows: &mut ArrayVec<Overflow, 2>)
    requires { array_vec_len overflows.old + length (overflow_of room.bytes room.superblock part.now) ≤ 2 }
    ensures { overflows.new.items ≡ overflows.old.items ++ overflow_of room.bytes room.superblock part.now }
{
    if !part.dirty {
        return;
    }
    let runs = part_runs(room, part);
    if runs > 1 {
        overflows.push(Overflow {
            pair: part.pair,
            len: runs - 1,
        });
    }
}

/// Notes each of some parts that is set and has more than one run.
fn note_all(room: BlockRoom, parts: &[OutlinePart], overflows: &mut ArrayVec<Overflow, 2>)
    requires { array_vec_len overflows.old + length (overflows_of room.bytes room.superblock parts.now) ≤ 2 }
    ensures { overflows.new.items ≡ overflows.old.items ++ overflows_of room.bytes room.superblock parts.now }
{
    'each: for part in parts {
        note(room, part, overflows);
    }
}

/// Notes each part of a directory that is set and has more than one run.
fn note_directory(
    room: BlockRoom,
    directory: &OutlineDirectory,
    overflows: &mut ArrayVec<Overflow, 2>,
)
    requires { array_vec_len overflows.old + length (overflows_of room.bytes room.superblock (parts directory.now)) ≤ 2 }
    ensures { overflows.new.items ≡ overflows.old.items ++ overflows_of room.bytes room.superblock (parts directory.now) }
{
    note(room, &directory.parts.first, overflows);
    note_all(room, &directory.parts.more, overflows);
}

/// The parts that are set and have more than one run, in the order of the thread.
pub(crate) fn overflows_of(
    room: BlockRoom,
    directories: &[OutlineDirectory],
) -> ArrayVec<Overflow, 2>
    requires { length (overflows_of room.bytes room.superblock (thread directories.now)) ≤ 2 }
    ensures { result.items ≡ overflows_of room.bytes room.superblock (thread directories.now) }
{
    let mut overflows = ArrayVec::new();
    'each: for directory in directories {
        note_directory(room, directory, &mut overflows);
    }
    overflows
}

/// Of two parts puts that of the pair `leading` first.
pub(crate) fn put_first(overflows: &mut ArrayVec<Overflow, 2>, leading: Option<(u32, u32)>)
    ensures { overflows.new.items ≡ leader_first (λ g. g.pair) leading overflows.old.items }
{
    let Some(leading) = leading else {
        return;
    };
    if overflows.len() == 2 && overflows[1].pair == leading {
        overflows.swap(0, 1);
    }
}
