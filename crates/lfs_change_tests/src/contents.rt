//! How many blocks commands take for what they make, and how many they leave.

ghost use Rattle.std.specs.Prelude.{◌<◌, ◌≤◌, ◌^◌};
ghost use Rattle.lfs_command.specs.AskedFor.{contents_len};

use lfs_block::geometry_ok;
use lfs_command::{
    Command, Named, count_after, data_blocks, directory_blocks, inline_limit, most_inline,
};
use lfs_fs::MOST_HELD;
use std::alloc::Global;

// more bytes than stand in any entry
const BYTES: [u8; 1_024] = [7; 1_024];

// the command that puts so many bytes, with this bound for those that stand in an entry
fn put_within(alloc: Global, len: usize, most: u32) -> Named<'static>
    requires { len ≤ 1024 }
    ensures { contents_len result < 2 ^ 32 }
{
    Command::Put {
        path: Vec::new(alloc),
        bytes: &BYTES[..len],
        most,
    }
}

// the command that puts so many bytes
fn put(alloc: Global, len: usize) -> Named<'static>
    requires { len ≤ 1024 }
    ensures { contents_len result < 2 ^ 32 }
{
    put_within(alloc, len, MOST_HELD)
}

// a block's size, a file's length, and how many blocks the file takes beside its entry
const FILES: [(u32, usize, u32); 7] = [
    (512, 0, 0),
    (512, 64, 0),
    (512, 65, 1),
    (512, 512, 1),
    (512, 513, 2),
    (16_384, 1_022, 0),
    (16_384, 1_023, 1),
];

// whether a file of so many bytes, of which there are at most 1,024, takes so many blocks
fn takes(alloc: Global, size: u32, len: usize, blocks: u32) -> bool {
    geometry_ok(size, 2) && len <= 1_024 && data_blocks(size, &put(alloc, len)) == blocks
}

// a block's size, a file's length, a bound, and how many blocks the file takes beside its entry
const BOUNDED: [(u32, usize, u32, u32); 6] = [
    (4_096, 128, 128, 0),
    (4_096, 129, 128, 1),
    (4_096, 0, 0, 0),
    (4_096, 1, 0, 1),
    (512, 64, 1_022, 0),
    (512, 65, 1_022, 1),
];

// whether a file of so many bytes, of which there are at most 1,024, takes so many blocks with this bound
fn takes_within(alloc: Global, size: u32, len: usize, most: u32, blocks: u32) -> bool {
    geometry_ok(size, 2)
        && len <= 1_024
        && data_blocks(size, &put_within(alloc, len, most)) == blocks
}

#[test]
fn a_command_bounds_what_stands_in_an_entry(rt: HostRuntime) {
    for (size, len, most, want) in &BOUNDED {
        assert!(rt; takes_within(rt.alloc(), *size, *len, *most, *want));
    }
    assert!(rt; inline_limit(4_096, 128) == 128);
    assert!(rt; inline_limit(512, 128) == 64);
}

#[test]
fn most_stand_in_an_entry(rt: HostRuntime) {
    for (size, len, want) in &FILES {
        assert!(rt; takes(rt.alloc(), *size, *len, *want));
    }
    assert!(rt; most_inline(512) == 64);
    assert!(rt; most_inline(16_384) == 1_022);
}

#[test]
fn directories_take_a_pair(rt: HostRuntime) {
    let path = Vec::new(rt.alloc());
    assert!(rt; directory_blocks(&Command::Mkdir { path }) == 2);
    assert!(rt; directory_blocks(&put(rt.alloc(), 513)) == 0);
}

#[test]
fn one_command_lengthens(rt: HostRuntime) {
    assert!(rt; count_after(&Command::Grow { count: 16 }, 8) == 16);
    assert!(rt; count_after(&put(rt.alloc(), 513), 8) == 8);
}
