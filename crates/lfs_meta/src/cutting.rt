//! How entries that take more room than one block has are cut.

ghost use Rattle.std.specs.Prelude.{◌≡◌, ◌+◌, ◌<◌, ◌≤◌, ◌^◌, length, map, IfSome};
ghost use Rattle.lfs_meta.specs.Runs.{runs_after, run_takes};
ghost use Rattle.lfs_meta.specs.Weighing.{weight_as_stored};

use crate::entry::Entry;
use crate::weighing::weight;
use std::alloc::Global;

/// The most entries of one pair.
const MOST_ENTRIES: usize = 1_000;

/// Whether a run that weighs `taken` and has `len` entries takes one more of weight `next`: it weighs no more than the room, and has at
/// most 1,000 entries.
pub fn run_takes(room: u32, taken: u32, len: usize, next: u32) -> bool
    requires { taken + next < 2 ^ 32 }
    ensures { result ≡ run_takes room taken len next }
{
    taken + next <= room && len < MOST_ENTRIES
}

/// The lengths of the runs into which entries are cut where a pair has `room` bytes for them: a run takes the next entry as
/// long as it weighs no more than that and has at most 1,000 entries. There is always a first run. An entry that weighs
/// more than `room` stands alone in a run, behind an empty one where it is the first. `None` where memory is refused.
pub fn cut(alloc: Global, entries: &[Entry], room: u32) -> Option<Vec<usize>>
    requires { room ≤ 65536 }
    ensures { IfSome result (λ lengths. lengths.items ≡ map (λ run. length run) (runs_after weight_as_stored room 0 0 entries.now)) }
{
    let mut lengths = Vec::new(alloc);
    let mut taken = 0;
    let mut len = 0;
    for entry in entries {
        let next = weight(entry);
        if run_takes(room, taken, len, next) {
            taken += next;
            len += 1;
        } else {
            lengths.push(len).ok()?;
            taken = next;
            len = 1;
        }
    }
    lengths.push(len).ok()?;
    Some(lengths)
}
