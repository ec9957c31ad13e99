//! What an image's superblock states, where its geometry or its version is refused.

use crate::stated::{StatedPlace, Statement, stated_of};
use lfs_block::{Blocks, Image, MountFault};
use lfs_meta::{Body, Entry, read_pair};
use std::alloc::Global;

/// What the superblock of an image states, as its last commit says, behind a fault of its geometry or its version; nothing where it isn't
/// read. Takes memory.
pub(crate) fn superblock_statement(
    alloc: Global,
    fault: MountFault,
    image: &Image,
) -> Option<Statement> {
    let _size = image.size();
    let Ok(root) = read_pair(alloc, image, (0, 1)) else {
        return None;
    };
    statement_in(fault, &root.entries)
}

/// What the first of these entries states.
fn statement_in(fault: MountFault, entries: &[Entry]) -> Option<Statement> {
    let place = match fault {
        MountFault::Version => StatedPlace::SuperblockVersion,
        _ => StatedPlace::Superblock,
    };
    match &entries.first()?.body {
        Body::Inline(words) => Some(Statement::Stated(place, stated_of(words)?)),
        _ => None,
    }
}
