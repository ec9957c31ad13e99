//! The tags that carry a part to another.

ghost use Rattle.std.specs.Prelude.{◌≡◌, ◌≤◌, ◌++◌, length, All, IfOk, OnOk};
ghost use Rattle.lfs_tag.specs.Writing.{items};
ghost use Rattle.lfs_meta.specs.Fits.{EntryFits};
ghost use Rattle.lfs_pair.specs.Difference.{delta_between, is_same_tail, part_between, tail_between};
ghost use Rattle.lfs_pair.specs.DifferenceSeen.{forced_seen};
ghost use Rattle.lfs_pair.specs.Writing.{stored_part};

use crate::change_edits::tail_edit;
use crate::edits::delta_edit;
use crate::entries_between::push_entries_between;
use crate::forced::Forced;
use lfs_meta::{Entry, Part, Tail};
use lfs_tag::Edit;
use std::alloc::{AllocError, Global};

/// Whether two tails are the same.
#[tactic(auto, unfolding(crate::specs::Difference::is_same_tail))]
fn is_same_tail(old: Tail, new: Tail) -> bool
    ensures { result ≡ is_same_tail old new }
{
    match (old, new) {
        (Tail::End, Tail::End) => true,
        (Tail::Soft(first, second), Tail::Soft(one, two)) => first == one && second == two,
        (Tail::Hard(first, second), Tail::Hard(one, two)) => first == one && second == two,
        _ => false,
    }
}

/// Adds a tail's tag, where it changes.
fn push_tail_between(edits: &mut Vec<Edit<'_>>, old: Tail, new: Tail) -> Result<(), AllocError>
    ensures { OnOk result (items edits.new.items ≡ items edits.old.items ++ tail_between old new) }
{
    if is_same_tail(old, new) {
        return Ok(());
    }
    edits.push(tail_edit(new))?;
    Ok(())
}

/// Adds a delta's tag, where it changes.
fn push_delta_between<'a>(
    edits: &mut Vec<Edit<'a>>,
    old: &[u8; 12],
    new: &'a [u8; 12],
) -> Result<(), AllocError>
    ensures { OnOk result (items edits.new.items ≡ items edits.old.items ++ delta_between old.now new.now) }
{
    if old.as_slice() == new.as_slice() {
        return Ok(());
    }
    edits.push(delta_edit(new))?;
    Ok(())
}

/// Each entry fits its tags.
fn entries_fit(entries: &[Entry])
    ensures { All EntryFits entries.now }
{
    for entry in entries {
        let _fits = entry.kind;
    }
}

/// The tags that carry a part to another: of the entries that go, those that come and those that stay, then of the tail and of the
/// delta.
pub(crate) fn part_between<'a>(
    alloc: Global,
    forced: Forced<'_>,
    old: &'a Part,
    entries: &'a [Entry],
    tail: Tail,
    delta: &'a [u8; 12],
) -> Result<Vec<Edit<'a>>, AllocError>
    requires old { length old.now.1.entries ≤ 1023 }
    requires new { length entries.now ≤ 1023 }
    ensures tags { IfOk result (λ edits. items edits.items
        ≡ part_between (forced_seen forced.entry) old.now.1 (stored_part entries.now tail delta.now)) }
    ensures fits { OnOk result (All EntryFits entries.now) }
    ensures twelve { length delta.now ≡ 12 }
{
    entries_fit(entries);
    let mut edits = Vec::new(alloc);
    push_entries_between(alloc, &mut edits, forced, &old.entries, entries)?;
    push_tail_between(&mut edits, old.tail, tail)?;
    push_delta_between(&mut edits, &old.delta, delta)?;
    Ok(edits)
}
