//! Images and sessions that tests begin with, and what these reply.

use crate::new_images::new_image_of;
use lfs_block::{Blocks, Image, geometry_ok};
use lfs_edit::Asked;
use lfs_session::{Session, StepFault};
use std::alloc::Global;

/// A new image of so many blocks of this size; none where no image has them.
pub(crate) fn image_of(alloc: Global, size: u32, count: u32) -> Option<Image> {
    if !geometry_ok(size, count) {
        return None;
    }
    new_image_of(alloc, size, count)
}

/// A new image of 8 blocks of 512 bytes.
pub(crate) fn new_image(alloc: Global) -> Option<Image> {
    image_of(alloc, 512, 8)
}

/// A session of an image.
pub(crate) fn fresh(alloc: Global, image: Image) -> Option<Session> {
    Session::fresh(alloc, image).ok()
}

/// A session of a new image.
pub(crate) fn new_session(alloc: Global) -> Option<Session> {
    match new_image(alloc) {
        Some(image) => fresh(alloc, image),
        None => None,
    }
}

/// Whether a session replies so to a command.
pub(crate) fn replies(
    alloc: Global,
    session: &mut Session,
    command: &Asked<'_>,
    reply: &Result<(), StepFault>,
) -> bool {
    session.command(alloc, command) == *reply
}

/// Whether a session carries commands out.
pub(crate) fn carries_out(alloc: Global, session: &mut Session, commands: &[Asked<'_>]) -> bool {
    for command in commands {
        if session.command(alloc, command).is_err() {
            return false;
        }
    }
    true
}

/// Whether two images are the same, byte for byte.
pub(crate) fn are_same(left: &Image, right: &Image) -> bool {
    if left.count() != right.count() {
        return false;
    }
    for n in 0..left.count() {
        if left.block(n) != right.block(n) {
            return false;
        }
    }
    true
}

/// Whether a session's image is this one.
pub(crate) fn has_image(session: &Session, image: &Image) -> bool {
    are_same(session.image(), image)
}
