//! Journals that runs leave.

use lfs_block::geometry_ok;
use lfs_command::Command;
use lfs_edit::format;
use lfs_history::Move;
use lfs_sink::MemorySink;
use lfs_step::{Step, run};
use std::alloc::Global;

/// What stands before the changes of the journal of an image of 8 blocks of 256 bytes, of which one is done.
const ONE_CHANGE: [u8; 24] = *b"lfsj\x02\0\0\0\0\x01\0\0\x08\0\0\0\x01\0\0\0\0\0\0\0";

/// The length of the journal of a change of three blocks of 256 bytes: what stands before the changes and before the blocks, and of each
/// block its number, its bytes before and its bytes after.
const THREE_BLOCKS: usize = 24 + 12 + 3 * (4 + 256 + 256);

/// The journal that is left where an image of blocks of 256 bytes gets a directory: of the root's pair changes one block, and of the
/// directory's both.
fn left_journal(alloc: Global, image: Vec<u8>) -> Option<Vec<u8>> {
    let path: &[u8] = b"/a";
    let command = Command::Mkdir { path };
    let steps = [Move::Do {
        command,
        keep: None,
    }];
    let journal = Vec::new(alloc);
    let mut out = MemorySink::new(alloc);
    let outcome = run(alloc, Step::Change(&steps), 256, image, journal, &mut out);
    outcome.journal.into_bytes(alloc)
}

/// Whether the journal that is left on a new image is one of a change of three blocks.
fn journal_is_left(alloc: Global) -> bool {
    if !geometry_ok(256, 8) {
        return false;
    }
    let Ok(image) = format(alloc, 256, 8) else {
        return false;
    };
    match left_journal(alloc, image) {
        Some(bytes) => bytes.len() == THREE_BLOCKS && bytes.starts_with(&ONE_CHANGE),
        None => false,
    }
}

#[test]
fn a_run_leaves_the_journal_of_its_change(rt: HostRuntime) {
    assert!(rt; journal_is_left(rt.alloc()));
}
