//! The tags that carry entries to others.

ghost use Rattle.std.specs.Prelude.{◌≡◌, ◌+◌, ◌≤◌, [], ◌∷◌, ◌++◌, List, length, map, IfOk, OnOk};
ghost use Rattle.lfs_tag.specs.Writing.{items};
ghost use Rattle.lfs_pair.specs.Difference.{Fate as StoredFate, deletes, entries_between, news, olds, puts};
ghost use Rattle.lfs_pair.specs.DifferenceSeen.{fate_seen, forced_seen};

use crate::aligning::fates;
use crate::change_edits::{create_edit, delete_edit};
use crate::edits::push_entry;
use crate::entry_between::push_entry_between;
use crate::fate::Fate;
use crate::forced::Forced;
use lfs_meta::Entry;
use lfs_tag::Edit;
use std::alloc::{AllocError, Global};

/// Adds the delete of an entry that goes. Hands out the id of the entry behind it.
#[tactic(auto, unfolding(crate::specs::Difference::deletes, crate::specs::Difference::olds))]
fn push_delete(edits: &mut Vec<Edit<'_>>, id: u16, fate: Fate<'_>) -> Result<u16, AllocError>
    requires { id + length (olds (fate_seen fate ∷ [])) ≤ 1023 }
    ensures pushed { IfOk result (λ next. (more : List StoredFate) → items edits.new.items ++ deletes next more
        ≡ items edits.old.items ++ deletes id (fate_seen fate.entry ∷ more)) }
    ensures small { IfOk result (λ next. next ≤ id + length (olds (fate_seen fate.entry ∷ []))) }
{
    match fate {
        Fate::Goes(_) => {
            edits.push(delete_edit(id))?;
            Ok(id)
        }
        Fate::Stays(..) => Ok(id + 1),
        Fate::Comes(_) => Ok(id),
    }
}

/// Adds the deletes of the entries that go.
fn push_deletes(edits: &mut Vec<Edit<'_>>, aligned: &[Fate<'_>]) -> Result<(), AllocError>
    requires { length (olds (map fate_seen aligned.now)) ≤ 1023 }
    ensures { OnOk result (items edits.new.items ≡ items edits.old.items ++ deletes 0 (map fate_seen aligned.now)) }
{
    let mut id = 0;
    for fate in aligned {
        id = push_delete(edits, id, *fate)?;
    }
    Ok(())
}

/// Adds what is put of an entry once those that go are gone. Hands out the id of the entry behind it.
#[tactic(auto, unfolding(crate::specs::Difference::puts, crate::specs::Difference::news))]
fn push_put<'a>(
    edits: &mut Vec<Edit<'a>>,
    forced: Forced<'_>,
    id: u16,
    fate: Fate<'a>,
) -> Result<u16, AllocError>
    requires { id + length (news (fate_seen fate ∷ [])) ≤ 1023 }
    ensures pushed { IfOk result (λ next. (more : List StoredFate) → items edits.new.items ++ puts (forced_seen forced.entry) next more
        ≡ items edits.old.items ++ puts (forced_seen forced.entry) id (fate_seen fate.entry ∷ more)) }
    ensures small { IfOk result (λ next. next ≤ id + length (news (fate_seen fate.entry ∷ []))) }
{
    match fate {
        Fate::Goes(_) => Ok(id),
        Fate::Stays(old, new) => {
            push_entry_between(edits, forced, id, old, new)?;
            Ok(id + 1)
        }
        Fate::Comes(new) => {
            edits.push(create_edit(id))?;
            push_entry(edits, id, new)?;
            Ok(id + 1)
        }
    }
}

/// Adds what is put once the entries that go are gone.
fn push_puts<'a>(
    edits: &mut Vec<Edit<'a>>,
    forced: Forced<'_>,
    aligned: &[Fate<'a>],
) -> Result<(), AllocError>
    requires { length (news (map fate_seen aligned.now)) ≤ 1023 }
    ensures { OnOk result (items edits.new.items ≡ items edits.old.items ++ puts (forced_seen forced.entry) 0 (map fate_seen aligned.now)) }
{
    let mut id = 0;
    for fate in aligned {
        id = push_put(edits, forced, id, *fate)?;
    }
    Ok(())
}

/// Adds the tags that carry entries to others.
pub(crate) fn push_entries_between<'a>(
    alloc: Global,
    edits: &mut Vec<Edit<'a>>,
    forced: Forced<'_>,
    old: &'a [Entry],
    new: &'a [Entry],
) -> Result<(), AllocError>
    requires old { length old.now ≤ 1023 }
    requires new { length new.now ≤ 1023 }
    ensures { OnOk result (items edits.new.items ≡ items edits.old.items ++ entries_between (forced_seen forced.entry) old.now new.now) }
{
    let aligned = fates(alloc, old, new)?;
    let all = aligned.as_slice();
    push_deletes(edits, all)?;
    push_puts(edits, forced, all)
}
