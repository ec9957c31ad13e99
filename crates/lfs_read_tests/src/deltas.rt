//! Shares of the global state.

use lfs_fs::Delta;

/// Deltas of unfinished moves of entry 2 of the pairs {2, 3} and {4, 5}, the second with orphans, and both together.
const MOVED: [u8; 12] = [0, 8, 0xf0, 0x4f, 2, 0, 0, 0, 3, 0, 0, 0];

const OTHER: [u8; 12] = [0, 8, 0xf0, 0x4f, 4, 0, 0, 0, 5, 0, 0, 0x80];

const JOINED: [u8; 12] = [0, 0, 0, 0, 6, 0, 0, 0, 6, 0, 0, 0x80];

#[test]
fn deltas_are_joined_bit_by_bit(rt: HostRuntime) {
    let moved = Delta::none().joined(&Delta::of(&MOVED));
    assert!(rt; moved.to_bytes() == MOVED);
    assert!(rt; moved.joined(&Delta::of(&OTHER)).to_bytes() == JOINED);
}
