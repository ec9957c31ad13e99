//! The disk version of commits that aren't read.

ghost use Rattle.std.specs.Prelude.{◌≡◌};
ghost use Rattle.lfs_lower.specs.Version.{later_version, other_version, unread_version};

use crate::seen_pair::root_seen;
use lfs_fs::VERSION;

/// The disk version that commits in one of an image's first two blocks state.
#[derive(Clone, Copy, PartialEq, Eq)]
pub struct StatedVersion {
    /// The block's number, 0 or 1.
    pub block: u32,
    /// The version, with its major number in the upper half.
    pub version: u32,
}

/// A version other than 2.0.
fn other_version(version: Option<u32>) -> Option<u32>
    ensures { result ≡ other_version version }
{
    match version {
        Some(VERSION) | None => None,
        version => version,
    }
}

/// The disk version, other than 2.0, of commits in the first two blocks of an image that a reader of version 2.0 doesn't read: the
/// version that they state last, in the block that a later version takes for the live one, with its major number in the upper half.
/// `size` is the size of a block in bytes. `None` where there are no such commits, where version 2.0 reads no commit of either
/// block, and where there aren't two blocks. Takes no memory, and time for the two blocks alone.
///
/// Source: littlefs disk version 2.1; which commits are told of: own.
pub fn later_version(image: &[u8], size: u32) -> Option<u32>
    ensures { result ≡ later_version image.now size }
{
    let root = root_seen(image, size)?;
    if root.is_read {
        other_version(root.live.unread.told.version())
    } else {
        None
    }
}

/// The same of an image of whose first two blocks version 2.0 reads no commit, with the block in which it is stated. `None` where
/// version 2.0 reads one, where a later version finds none either, and where there aren't two blocks. Takes no memory, and time for the
/// two blocks alone.
///
/// Source: littlefs disk version 2.1; which commits are told of: own.
pub fn unread_version(image: &[u8], size: u32) -> Option<StatedVersion>
    ensures { result ≡ unread_version image.now size }
{
    let root = root_seen(image, size)?;
    if root.is_read {
        return None;
    }
    let version = other_version(root.live.unread.told.version())?;
    Some(StatedVersion {
        block: root.live.number,
        version,
    })
}
