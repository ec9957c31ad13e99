//! How many runs the entries of a part make.

ghost use Rattle.std.specs.Prelude.{◌≡◌, ◌+◌, ◌<◌, ◌≤◌, ◌^◌, length};
ghost use Rattle.lfs_meta.specs.Runs.{most_entries, runs_after};
ghost use Rattle.lfs_fs.specs.Weight.{weight};
ghost use Rattle.lfs_law.specs.PartsCut.{runs_by};

use crate::block_room::{BlockRoom, begun_run};
use crate::weighing::weight;
use lfs_fs::{OutlineEntry, OutlinePart};
use lfs_meta::run_takes;

/// The number of runs of entries where a block has `room` bytes for them and the first run weighs `taken` and has `len` entries
/// already, as `split` makes them.
pub(crate) fn run_count(entries: &[OutlineEntry], room: u32, taken: u32, len: usize) -> usize
    requires room { room ≤ 65536 }
    requires light { taken ≤ 330244 }
    requires few { len ≤ most_entries }
    ensures { result ≡ length (runs_after weight room taken len entries.now) }
{
    let mut count = 1;
    let mut taken = taken;
    let mut len = len;
    'each: for entry in entries {
        let next = weight(entry);
        if !run_takes(room, taken, len, next) {
            count += 1;
            taken = 0;
            len = 0;
        }
        taken += next;
        len += 1;
    }
    count
}

/// The number of runs of a part's entries.
pub(crate) fn part_runs(room: BlockRoom, part: &OutlinePart) -> usize
    ensures { result ≡ length (runs_by room.bytes room.superblock part.now) }
{
    let (taken, len) = begun_run(room, part.pair);
    run_count(&part.entries, room.bytes, taken, len)
}
