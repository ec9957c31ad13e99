//! Runs into which entries are cut.

use crate::images::part_of;
use crate::writing::THREE_ENTRIES;
use lfs_meta::{Entry, cut};
use std::alloc::Global;

/// A room, and the lengths of the runs of entries that weigh 28, 19 and 19.
const ROOMS: [(u32, &[usize]); 2] = [(65, &[2, 1]), (46, &[1, 2])];

/// Whether entries are cut into runs of these lengths.
fn is_cut(alloc: Global, entries: &[Entry], room: u32, wanted: &[usize]) -> bool {
    if room > 65_536 {
        return false;
    }
    match cut(alloc, entries, room) {
        Some(lengths) => lengths.as_slice() == wanted,
        None => false,
    }
}

/// Whether entries are cut so in each of these rooms.
fn are_cut(alloc: Global, entries: &[Entry]) -> bool {
    for (room, wanted) in &ROOMS {
        if !is_cut(alloc, entries, *room, wanted) {
            return false;
        }
    }
    true
}

/// Whether the three entries are cut so.
fn three_are_cut(alloc: Global) -> bool {
    match part_of(alloc, THREE_ENTRIES) {
        Some(part) => are_cut(alloc, &part.entries),
        None => false,
    }
}

#[test]
fn cuts_entries_into_runs(rt: HostRuntime) {
    assert!(rt; three_are_cut(rt.alloc()));
}
