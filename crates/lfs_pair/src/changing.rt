//! A pair carried to another part.

ghost use Rattle.std.specs.Prelude.{◌≡◌, ◌≢◌, ◌+◌, ◌<◌, ◌≤◌, length, Some, None, option_map, All, IfOk, IfSome, IfNone};
ghost use Rattle.std.specs.Bool.{OnTrue};
ghost use Rattle.std.specs.List.{AllByRecursion};
ghost use Rattle.lfs_meta.specs.Fits.{EntryFits, TailFits};
ghost use Rattle.lfs_meta.specs.LiveBlock.{stored_part_of};
ghost use Rattle.lfs_meta.specs.Runs.{most_entries};
ghost use Rattle.lfs_meta.specs.Weighing.{weights};
ghost use Rattle.lfs_meta.specs.Complete.{IsComplete};
ghost use Rattle.lfs_pair.specs.Appending.{IsPairRewritten, IsPartAppended, appended_tags};
ghost use Rattle.lfs_pair.specs.DifferenceSeen.{forced_seen};
ghost use Rattle.lfs_pair.specs.Writing.{stored_part};

use crate::appending::append;
use crate::difference::part_between;
use crate::forced::Forced;
use crate::laws::{parts_become_others, written_parts_replay};
use crate::writing::rewrite;
use lfs_block::{Blocks, MountFault};
use lfs_meta::{Entry, Part, Tail, read_pair, unread_pairs_hold_no_part};
use std::alloc::{AllocError, Global};

/// The most entries that the ids of tags can name.
const MOST_NAMED: usize = 1_023;

/// The part that a pair holds; `None` where it holds none all of whose entries are complete. Takes memory.
pub fn held_part<B: Blocks>(
    alloc: Global,
    blocks: &B,
    pair: (u32, u32),
) -> Result<Option<Part>, AllocError>
    requires first { pair.0 < (B.disk blocks.now).count }
    requires second { pair.1 < (B.disk blocks.now).count }
    ensures held { IfOk result (λ found. option_map (λ part. part.1) found ≡ stored_part_of (B.disk blocks.now) pair) }
    ensures fit { IfOk result (λ found. IfSome found (λ part. All EntryFits part.1.entries)) }
    ensures complete { IfOk result (λ found. IfSome found (λ part. AllByRecursion IsComplete part.1.entries)) }
{
    unread_pairs_hold_no_part();
    match read_pair(alloc, blocks, pair) {
        Ok(part) => Ok(Some(part)),
        Err(fault) => match fault {
            MountFault::Memory => Err(AllocError),
            _ => Ok(None),
        },
    }
}

/// Whether two parts are the same: whether no tag carries one to the other. Takes memory.
fn are_same(alloc: Global, old: &Part, new: &Part) -> Result<bool, AllocError>
    requires fit { All EntryFits old.now.1.entries }
    requires old { AllByRecursion IsComplete old.now.1.entries }
    requires new { AllByRecursion IsComplete new.now.1.entries }
    requires few { length new.now.1.entries ≤ most_entries }
    requires tail { TailFits new.now.1.tail }
    ensures { IfOk result (λ same. OnTrue same (old.now.1 ≡ new.now.1)) }
{
    parts_become_others();
    written_parts_replay();
    if old.entries.len() > MOST_NAMED {
        return Ok(false);
    }
    let edits = part_between(
        alloc,
        Forced::Nothing,
        old,
        &new.entries,
        new.tail,
        &new.delta,
    )?;
    Ok(edits.is_empty())
}

/// Whether the pair of a part holds that part. Takes memory.
pub fn holds_part<B: Blocks>(alloc: Global, blocks: &B, part: &Part) -> Result<bool, AllocError>
    requires first { part.now.0.0 < (B.disk blocks.now).count }
    requires second { part.now.0.1 < (B.disk blocks.now).count }
    requires complete { AllByRecursion IsComplete part.now.1.entries }
    requires few { length part.now.1.entries ≤ most_entries }
    requires tail { TailFits part.now.1.tail }
    ensures { IfOk result (λ holds. OnTrue holds (stored_part_of (B.disk blocks.now) part.now.0 ≡ Some part.now.1)) }
{
    match held_part(alloc, blocks, part.pair)? {
        Some(old) => are_same(alloc, &old, part),
        None => Ok(false),
    }
}

/// A pair that holds a part carried to another one by a commit appended; `None` where the part has more entries than tags
/// can name, or where there is no room for the commit.
fn append_difference<B: Blocks>(
    alloc: Global,
    blocks: &B,
    pair: (u32, u32),
    old: &Part,
    entries: &[Entry],
    tail: Tail,
    delta: &[u8; 12],
    forced: Forced<'_>,
) -> Result<Option<(u32, Vec<u8>)>, AllocError>
    requires apart { pair.0 ≢ pair.1 }
    requires first { pair.0 < (B.disk blocks.now).count }
    requires second { pair.1 < (B.disk blocks.now).count }
    requires held { stored_part_of (B.disk blocks.now) pair ≡ Some old.now.1 }
    requires fit { All EntryFits old.now.1.entries }
    requires complete { AllByRecursion IsComplete entries.now }
    requires few { length entries.now ≤ most_entries }
    requires tail { TailFits tail }
    ensures appended { IfOk result (λ found. IfSome found (λ new.
        IsPartAppended (B.disk blocks.now) pair (forced_seen forced.entry) (stored_part entries.now tail delta.now) new.0 new.1.items)) }
    ensures full { IfOk result (λ found. IfNone found
        (appended_tags (B.disk blocks.now) pair (forced_seen forced.entry) (stored_part entries.now tail delta.now) ≡ None)) }
{
    parts_become_others();
    written_parts_replay();
    if old.entries.len() > MOST_NAMED {
        return Ok(None);
    }
    let edits = part_between(alloc, forced, old, entries, tail, delta)?;
    append(alloc, blocks, pair, &edits)
}

/// A pair carried to a part by a commit appended; `None` where it can't be.
fn append_part<B: Blocks>(
    alloc: Global,
    blocks: &B,
    pair: (u32, u32),
    entries: &[Entry],
    tail: Tail,
    delta: &[u8; 12],
    forced: Forced<'_>,
) -> Result<Option<(u32, Vec<u8>)>, AllocError>
    requires apart { pair.0 ≢ pair.1 }
    requires first { pair.0 < (B.disk blocks.now).count }
    requires second { pair.1 < (B.disk blocks.now).count }
    requires complete { AllByRecursion IsComplete entries.now }
    requires few { length entries.now ≤ most_entries }
    requires tail { TailFits tail }
    ensures appended { IfOk result (λ found. IfSome found (λ new.
        IsPartAppended (B.disk blocks.now) pair (forced_seen forced.entry) (stored_part entries.now tail delta.now) new.0 new.1.items)) }
    ensures full { IfOk result (λ found. IfNone found
        (appended_tags (B.disk blocks.now) pair (forced_seen forced.entry) (stored_part entries.now tail delta.now) ≡ None)) }
{
    match held_part(alloc, blocks, pair)? {
        Some(old) => append_difference(alloc, blocks, pair, &old, entries, tail, delta, forced),
        None => Ok(None),
    }
}

/// A pair carried to a part: the number of the block that is written, and that block's new bytes. Where the pair holds a
/// part of at most 1,023 entries, and the tags between that part and the new one fit behind the log of the live block, they
/// are appended to it as a commit. Else the block that isn't live is written as `rewrite` does. In the image with that block
/// the pair holds the new part. `forced` is written even where it stays the same. Takes memory.
pub fn change_pair<B: Blocks>(
    alloc: Global,
    blocks: &B,
    pair: (u32, u32),
    entries: &[Entry],
    tail: Tail,
    delta: [u8; 12],
    forced: Forced<'_>,
) -> Result<(u32, Vec<u8>), AllocError>
    requires apart { pair.0 ≢ pair.1 }
    requires first { pair.0 < (B.disk blocks.now).count }
    requires second { pair.1 < (B.disk blocks.now).count }
    requires complete { AllByRecursion IsComplete entries.now }
    requires few { length entries.now ≤ most_entries }
    requires room { weights entries.now + 40 ≤ (B.disk blocks.now).size }
    requires tail { TailFits tail }
    ensures { IfOk result (λ new. IsPairRewritten (B.disk blocks.now) pair (forced_seen forced.entry) (stored_part entries.now tail delta) new.0 new.1.items) }
{
    match append_part(alloc, blocks, pair, entries, tail, &delta, forced)? {
        Some(new) => Ok(new),
        None => rewrite(alloc, blocks, pair, entries, tail, delta),
    }
}
