//! What is gathered of an image before its tree is walked.

ghost use Rattle.std.specs.Prelude.{◌≡◌, IfOk, IfErr, OnOk};
ghost use Rattle.lfs_meta.specs.Fits.{RiseFrom};
ghost use Rattle.lfs_fs.specs.Cause.{HasCause};
ghost use Rattle.lfs_fs.specs.Gathered.{IsGathered};
ghost use Rattle.lfs_fs.specs.SuperblockFirst.{BlamesSuperblock, HasGoodSuperblock};

use crate::outline::Outline;
use crate::state::settled;
use crate::superblock::{judged, take_first};
use crate::thread_reading::{read_root, read_thread};
use lfs_block::{Blocks, MountFault};
use lfs_meta::{Attribute, Entry};
use std::alloc::Global;

/// What is gathered of an image: its outline, and a flag for each block that is used.
#[derive(Drop)]
pub(crate) struct Gathered {
    /// The outline.
    pub(crate) outline: Outline,
    /// Whether each block is used.
    pub(crate) used: Vec<bool>,
}

/// The attributes of an entry.
pub(crate) fn attributes_of(entry: Entry) -> Vec<Attribute>
    ensures value { result.items ≡ entry.attributes }
    ensures rise { RiseFrom 0 result.items }
{
    entry.attributes
}

/// Reads the thread of an image, judges its superblock, its entries and its global state, and marks the blocks that it
/// uses. What the walk from the root shows is not judged: `MissingDirectory`, `Orphan` where a directory isn't reached,
/// and `BlockTwice` where a directory has two names. `Memory` says only that a growth was refused.
pub(crate) fn gather<B: Blocks>(alloc: Global, blocks: &B) -> Result<Gathered, MountFault>
    ensures gathered { IfOk result (λ gathered. IsGathered (B.disk blocks.now) gathered) }
    ensures refused { IfErr result (λ fault. HasCause (B.disk blocks.now) fault) }
    ensures good { OnOk result (HasGoodSuperblock (B.disk blocks.now)) }
    ensures first { IfErr result (λ fault. BlamesSuperblock (B.disk blocks.now) fault) }
{
    let size = blocks.size();
    let count = blocks.count();
    let mut used = vec![in alloc; false; count as usize]?;
    let table = used.as_mut_slice();
    let mut root = read_root(alloc, blocks, table)?;
    let Some(superblock) = take_first(&mut root) else {
        return Err(MountFault::NoSuperblock);
    };
    let limits = judged(&superblock, size, count)?;
    let joined = read_thread(alloc, blocks, limits, table, root)?;
    settled(&joined.state)?;
    let directories = joined.into_directories(alloc)?;
    Ok(Gathered {
        outline: Outline {
            size,
            count,
            limits,
            attributes: attributes_of(superblock),
            directories,
        },
        used,
    })
}
