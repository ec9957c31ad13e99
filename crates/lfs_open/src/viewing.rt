//! The bytes of an image's file as they are read.

ghost use Rattle.std.specs.Prelude.{◌≡◌, IfErr, IfOk};
ghost use Rattle.lfs_open.specs.ReadBy.{IsAskedBy, IsReadAnew, IsReadBy, told_version};

use lfs_fs::VERSION;
use lfs_lower::begins_with;
use lfs_request::{Query, View};
use lfs_settle::{read_as, read_within};
use std::alloc::{AllocError, Global};

/// Bytes that were read of an image's file, from its place on, as the image is looked at. Takes memory if they aren't read as they are.
pub fn read_by(alloc: Global, view: View, size: u32, bytes: Vec<u8>) -> Result<Vec<u8>, AllocError>
    ensures read { IfOk result (λ read. IsReadBy view size bytes.items read.items) }
    ensures refused { IfErr result (λ error. IsReadAnew view) }
{
    match view.offset {
        None => read_as(alloc, view.by_device, size, bytes),
        Some(_) => read_within(alloc, view.by_device, size, bytes),
    }
}

/// The disk version that is told of the image of blocks of `size` bytes with which these bytes begin: if it is read as a device does, the one
/// that its superblock states; else 2.0, since an image of another one doesn't mount.
fn told_version(by_device: bool, size: u32, bytes: &[u8]) -> u32
    ensures { result ≡ told_version by_device size bytes.now }
{
    if !by_device {
        return VERSION;
    }
    match begins_with(size, bytes) {
        Some(stated) => stated.version,
        None => VERSION,
    }
}

/// A question, asked of the image with which these bytes of its file begin, which has blocks of `size` bytes: a check tells their disk version,
/// and another image is read as a device does, if that is asked for.
pub fn asked_by<'a>(
    alloc: Global,
    by_device: bool,
    size: u32,
    image: &[u8],
    question: Query<'a, Vec<u8>>,
) -> Result<Query<'a, Vec<u8>>, AllocError>
    ensures { IfOk result (IsAskedBy by_device size image.now question.entry) }
{
    match question {
        Query::Check { most, .. } => Ok(Query::Check {
            version: told_version(by_device, size, image),
            most,
        }),
        Query::Diff { other, size, quiet } => Ok(Query::Diff {
            other: read_as(alloc, by_device, size, other)?,
            size,
            quiet,
        }),
        question => Ok(question),
    }
}
