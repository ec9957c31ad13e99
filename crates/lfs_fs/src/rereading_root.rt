//! The root's first part of an image that differs in some blocks from one whose outline is known.

ghost use Rattle.std.specs.Prelude.{◌≡◌, IfOk, length};
ghost use Rattle.lfs_block.specs.Disk.{IsDisk};
ghost use Rattle.lfs_meta.specs.Fits.{RiseFrom};
ghost use Rattle.lfs_fs.specs.Reading.{reading_of};
ghost use Rattle.lfs_fs.specs.Reread.{AreKnown, IsStarted};
ghost use Rattle.lfs_fs.specs.Used.{Marks};

use crate::gathering::attributes_of;
use crate::joined::Joined;
use crate::known_parts::KnownParts;
use crate::limits::Limits;
use crate::superblock::{judged, take_first};
use crate::thread_reading::{ROOT, next_pair, read_root};
use crate::used::mark_all;
use lfs_block::{Blocks, MountFault};
use lfs_meta::{Attribute, held_parts_are_complete};
use std::alloc::Global;

/// What is kept of the thread so far, from the root's first part on.
#[derive(Drop)]
pub(crate) struct Started {
    /// The root's attributes.
    pub(crate) attributes: Vec<Attribute>,
    /// The parts.
    pub(crate) joined: Joined,
    /// The pair that comes next.
    pub(crate) next: Option<(u32, u32)>,
}

/// Reads the root's first part, less its superblock: what `read_root` and `judged` refuse, `Limits` where its limits aren't these,
/// or what the part isn't kept for.
fn read_start<B: Blocks>(
    alloc: Global,
    blocks: &B,
    limits: Limits,
    used: &mut [bool],
) -> Result<Started, MountFault>
    requires len { length used.old ≡ (B.disk blocks.now).count }
    requires fresh { Marks used.old (λ b. 0) }
    ensures started { IfOk result (λ s. IsStarted (reading_of (B.disk blocks.now)) limits s.attributes.items used.new s.joined s.next) }
    ensures rise { IfOk result (λ s. RiseFrom 0 s.attributes.items) }
{
    let mut root = read_root(alloc, blocks, used)?;
    let Some(superblock) = take_first(&mut root) else {
        return Err(MountFault::NoSuperblock);
    };
    let said = judged(&superblock, blocks.size(), blocks.count())?;
    if said != limits {
        return Err(MountFault::Limits);
    }
    let next = next_pair(root.tail);
    let mut joined = Joined::new(alloc);
    joined.keep(alloc, blocks, limits, used, root)?;
    Ok(Started {
        attributes: attributes_of(superblock),
        joined,
        next,
    })
}

/// Takes the root's first part over where no changed block is its own, with these attributes, or reads it.
pub(crate) fn start<B: Blocks>(
    alloc: Global,
    blocks: &B,
    limits: Limits,
    attributes: Vec<Attribute>,
    used: &mut [bool],
    known: &mut KnownParts,
) -> Result<Started, MountFault>
    requires disk { IsDisk (B.disk blocks.now) }
    requires len { length used.old ≡ (B.disk blocks.now).count }
    requires fresh { Marks used.old (λ b. 0) }
    requires known { AreKnown (reading_of (B.disk blocks.now)) limits attributes.items known.old.changed.items known.old.parts.items }
    requires rise { RiseFrom 0 attributes.items }
    ensures started { IfOk result (λ s. IsStarted (reading_of (B.disk blocks.now)) limits s.attributes.items used.new s.joined s.next) }
    ensures rise { IfOk result (λ s. RiseFrom 0 s.attributes.items) }
    ensures known { AreKnown (reading_of (B.disk blocks.now)) limits attributes.items known.new.changed.items known.new.parts.items }
{
    held_parts_are_complete();
    let Some(part) = known.take(ROOT) else {
        return read_start(alloc, blocks, limits, used);
    };
    mark_all(used, &[ROOT.0, ROOT.1])?;
    let next = next_pair(part.tail);
    let mut joined = Joined::new(alloc);
    joined.take_over(alloc, used, part)?;
    Ok(Started {
        attributes,
        joined,
        next,
    })
}
