//! An image that differs in some blocks from one whose outline is known.

ghost use Rattle.std.specs.Prelude.{◌≡◌, ◌≢◌, ◌<◌, IfOk, IfSome, OnOk, length};
ghost use Rattle.lfs_block.specs.Disk.{IsDisk};
ghost use Rattle.lfs_meta.specs.Attribute.{Attributes};
ghost use Rattle.lfs_meta.specs.Fits.{RiseFrom};
ghost use Rattle.lfs_fs.specs.Gathered.{IsGathered};
ghost use Rattle.lfs_fs.specs.Gathering.{part_entries};
ghost use Rattle.lfs_fs.specs.Mounted.{IsOutlineOf};
ghost use Rattle.lfs_fs.specs.Pair.{root};
ghost use Rattle.lfs_fs.specs.Reading.{reading_of};
ghost use Rattle.lfs_fs.specs.Reread.{AreKnown, IsOutlineBut, IsReread, IsStarted, KeepsPair};
ghost use Rattle.lfs_fs.specs.Sound.{Rise};

use crate::gathering::Gathered;
use crate::joined::Joined;
use crate::known_parts::KnownParts;
use crate::limits::Limits;
use crate::order::order_of;
use crate::outline::Outline;
use crate::rereading_root::{Started, start};
use crate::state::settled;
use crate::thread_reading::next_pair;
use crate::used::mark_all;
use lfs_block::{Blocks, MountFault};
use lfs_file::chains_stay_on_their_blocks;
use lfs_meta::{held_parts_are_complete, parts_depend_on_their_blocks, read_pair};
use std::alloc::Global;

/// Takes the part of a pair over where it is known and no changed block is its own, or reads it, and answers the pair that comes next.
fn keep_pair<B: Blocks>(
    alloc: Global,
    blocks: &B,
    limits: Limits,
    used: &mut [bool],
    known: &mut KnownParts,
    joined: &mut Joined,
    pair: (u32, u32),
) -> Result<Option<(u32, u32)>, MountFault>
    requires disk { IsDisk (B.disk blocks.now) }
    requires len { length used.old ≡ (B.disk blocks.now).count }
    requires first { pair.0 < (B.disk blocks.now).count }
    requires second { pair.1 < (B.disk blocks.now).count }
    requires other { pair ≢ root }
    requires rise { Rise (part_entries joined.old.parts.items) }
    requires known { (attributes : Attributes) × AreKnown (reading_of (B.disk blocks.now)) limits attributes known.old.changed.items known.old.parts.items }
    ensures kept { IfOk result (λ next. KeepsPair (reading_of (B.disk blocks.now)) limits used.old used.new pair next joined.old joined.new) }
    ensures known { OnOk result ((attributes : Attributes) × AreKnown (reading_of (B.disk blocks.now)) limits attributes known.new.changed.items known.new.parts.items) }
{
    held_parts_are_complete();
    if let Some(part) = known.take(pair) {
        let next = next_pair(part.tail);
        joined.take_over(alloc, used, part)?;
        return Ok(next);
    }
    let part = read_pair(alloc, blocks, pair)?;
    let next = next_pair(part.tail);
    joined.keep(alloc, blocks, limits, used, part)?;
    Ok(next)
}

/// Keeps the parts of the thread behind the root's first one, each taken over or read.
fn reread_thread<B: Blocks>(
    alloc: Global,
    blocks: &B,
    limits: Limits,
    used: &mut [bool],
    known: KnownParts,
    started: Started,
) -> Result<Started, MountFault>
    requires disk { IsDisk (B.disk blocks.now) }
    requires known { (attributes : Attributes) × AreKnown (reading_of (B.disk blocks.now)) limits attributes known.changed.items known.parts.items }
    requires started { IsStarted (reading_of (B.disk blocks.now)) limits started.attributes.items used.old started.joined started.next }
    ensures reread { IfOk result (λ s. IsReread (reading_of (B.disk blocks.now)) limits s.attributes.items used.new s.joined) }
    ensures attributes { IfOk result (λ s. s.attributes ≡ started.attributes) }
{
    let Started {
        attributes,
        mut joined,
        mut next,
    } = started;
    let mut known = known;
    'thread: while let Some(pair) = next {
        mark_all(used, &[pair.0, pair.1])?;
        next = keep_pair(alloc, blocks, limits, used, &mut known, &mut joined, pair)?;
    }
    Ok(Started {
        attributes,
        joined,
        next,
    })
}

/// What is gathered of an image that differs in these blocks alone from one of this outline. What is refused isn't said of the image:
/// its limits may only be others than they were.
fn regather<B: Blocks>(
    alloc: Global,
    blocks: &B,
    outline: Outline,
    changed: &[u32],
) -> Result<Gathered, MountFault>
    requires { IsOutlineBut changed.now (B.disk blocks.now) outline }
    ensures { IfOk result (λ gathered. IsGathered (B.disk blocks.now) gathered) }
{
    parts_depend_on_their_blocks();
    chains_stay_on_their_blocks();
    let Outline {
        size,
        count,
        limits,
        attributes,
        directories,
    } = outline;
    let _size = blocks.size();
    let mut used = vec![in alloc; false; count as usize]?;
    let mut known = KnownParts::of(alloc, count, directories, changed)?;
    let table = used.as_mut_slice();
    let started = start(alloc, blocks, limits, attributes, table, &mut known)?;
    let Started {
        attributes,
        joined,
        next: _,
    } = reread_thread(alloc, blocks, limits, table, known, started)?;
    settled(&joined.state)?;
    let directories = joined.into_directories(alloc)?;
    Ok(Gathered {
        outline: Outline {
            size,
            count,
            limits,
            attributes,
            directories,
        },
        used,
    })
}

/// The outline of an image that differs in these blocks alone from one of this outline: parts of which no such block is are taken over as
/// they are, the others read. `None` where it isn't found this way, which says nothing of the image: `mount` does.
pub fn reread<B: Blocks>(
    alloc: Global,
    blocks: &B,
    outline: Outline,
    changed: &[u32],
) -> Option<Outline>
    requires { IsOutlineBut changed.now (B.disk blocks.now) outline }
    ensures { IfSome result (λ outline. IsOutlineOf (B.disk blocks.now) outline) }
{
    let Ok(Gathered { outline, used: _ }) = regather(alloc, blocks, outline, changed) else {
        return None;
    };
    match order_of(alloc, &outline) {
        Ok(_) => Some(outline),
        Err(_) => None,
    }
}
