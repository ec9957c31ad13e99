//! Parts kept as they are read.

ghost use Rattle.std.specs.Prelude.{◌≡◌, ◌++◌, IfOk, IfErr, length};
ghost use Rattle.std.specs.List.{AllByRecursion};
ghost use Rattle.lfs_block.specs.Disk.{IsDisk};
ghost use Rattle.lfs_meta.specs.Complete.{IsComplete};
ghost use Rattle.lfs_fs.specs.Gathering.{EntriesCause, KeepsEntries, KeepsPart, part_entries};
ghost use Rattle.lfs_fs.specs.Reading.{reading_of};
ghost use Rattle.lfs_fs.specs.Sound.{Rise};

use crate::delta::Delta;
use crate::following::comes_last;
use crate::keeping::kept_entry;
use crate::limits::Limits;
use crate::outline_entry::OutlineEntry;
use crate::outline_part::OutlinePart;
use crate::pushing::push;
use lfs_block::{Blocks, MountFault};
use lfs_meta::{Entry, Part};
use std::alloc::Global;

/// Entries of a part kept, and their blocks marked: what one is refused for, or `OrderFault` where a name doesn't come
/// after the one before, or after those of the parts before.
fn kept_entries<B: Blocks>(
    alloc: Global,
    blocks: &B,
    limits: Limits,
    used: &mut [bool],
    before: &[OutlinePart],
    entries: Vec<Entry>,
) -> Result<Vec<OutlineEntry>, MountFault>
    requires disk { IsDisk (B.disk blocks.now) }
    requires len { length used.old ≡ (B.disk blocks.now).count }
    requires complete { AllByRecursion IsComplete entries.items }
    requires rise { Rise (part_entries before.now) }
    ensures kept { IfOk result (λ kept. KeepsEntries (reading_of (B.disk blocks.now)) limits used.old used.new entries.items kept.items) }
    ensures rise { IfOk result (λ kept. Rise (part_entries before.now ++ kept.items)) }
    ensures refused { IfErr result (λ fault. EntriesCause fault (reading_of (B.disk blocks.now)) limits used.old (part_entries before.now) entries.items) }
{
    let mut kept = Vec::with_capacity(alloc, entries.len())?;
    'each: for entry in entries {
        let next = kept_entry(alloc, blocks, limits, used, entry)?;
        if !comes_last(before, &kept, &next.name) {
            return Err(MountFault::OrderFault);
        }
        push(&mut kept, next)?;
    }
    Ok(kept)
}

/// A part kept behind the parts before it in its directory, and the blocks of its files marked: what one of its entries
/// is refused for, or `OrderFault` where a name doesn't come after the one before.
pub(crate) fn kept_part<B: Blocks>(
    alloc: Global,
    blocks: &B,
    limits: Limits,
    used: &mut [bool],
    before: &[OutlinePart],
    part: Part,
) -> Result<OutlinePart, MountFault>
    requires disk { IsDisk (B.disk blocks.now) }
    requires len { length used.old ≡ (B.disk blocks.now).count }
    requires complete { AllByRecursion IsComplete part.1.entries }
    requires rise { Rise (part_entries before.now) }
    ensures kept { IfOk result (λ kept. KeepsPart (reading_of (B.disk blocks.now)) limits used.old used.new part before.now kept) }
    ensures refused { IfErr result (λ fault. EntriesCause fault (reading_of (B.disk blocks.now)) limits used.old (part_entries before.now) part.1.entries) }
{
    let delta = Delta::of(&part.delta);
    let entries = kept_entries(alloc, blocks, limits, used, before, part.entries)?;
    Ok(OutlinePart {
        pair: part.pair,
        entries,
        delta,
        dirty: false,
    })
}
