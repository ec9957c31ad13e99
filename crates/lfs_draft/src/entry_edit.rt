//! Edits of a list of entries.

ghost use Rattle.std.specs.Prelude.{◌≡◌, ◌≤◌, not, count_by, length, OnOk, OnErr};
ghost use Rattle.std.specs.List.{position, prefix_len};
ghost use Rattle.lfs_fs.specs.Entry.{is_named};
ghost use Rattle.lfs_fs.specs.NameOrder.{precedes};
ghost use Rattle.lfs_fs.specs.Sound.{Rise};
ghost use Rattle.lfs_draft.specs.EntryChange.{ChangeFits, entry_change};
ghost use Rattle.lfs_command.specs.EntryEdit.{changed, place, without};

use crate::entry_change::{EntryChange, change_entry};
use lfs_fs::{OutlineEntry, names_are_ordered, precedes};
use std::alloc::{AllocError, Global};

/// How many entries stand before the first one with a greater name. Takes no time to speak of where the name comes last.
fn place_of(entries: &[OutlineEntry], name: &[u8]) -> usize
    requires { Rise entries.now }
    ensures place { result ≡ prefix_len (λ e. not (precedes name.now e.name)) entries.now }
    ensures within { result ≤ length entries.now }
{
    names_are_ordered();
    match entries.last() {
        Some(entry) if precedes(&entry.name, name) => entries.len(),
        _ => entries
            .iter()
            .take_while(|entry| !precedes(name, &entry.name))
            .count(),
    }
}

/// Puts an entry before the first one with a greater name, else at the end. Want of memory changes nothing.
pub(crate) fn place(entries: &mut Vec<OutlineEntry>, entry: OutlineEntry) -> Result<(), AllocError>
    requires { Rise entries.old.items }
    ensures placed { OnOk result (entries.new.items ≡ place entry entries.old.items) }
    ensures unchanged { OnErr result (entries.new.items ≡ entries.old.items) }
{
    let at = place_of(entries, &entry.name);
    entries.insert(at, entry)?;
    Ok(())
}

/// Takes the entries of a name out.
pub(crate) fn take_out(entries: &mut Vec<OutlineEntry>, name: &[u8])
    ensures { entries.new.items ≡ without name.now entries.old.items }
{
    entries.retain(
        |entry| -> bool
            ensures { result ≡ not (is_named name.entry.now entry.now) }
        { !entry.is_named(name) },
    );
}

/// The place of the first entry of a name.
fn index_of(entries: &[OutlineEntry], name: &[u8]) -> Option<usize>
    ensures { result ≡ position (is_named name.now) entries.now }
{
    entries.iter().position(|entry| entry.is_named(name))
}

/// Changes the entry of a name. Want of memory changes nothing.
pub(crate) fn change_named(
    alloc: Global,
    entries: &mut Vec<OutlineEntry>,
    name: &[u8],
    change: EntryChange,
) -> Result<(), AllocError>
    requires once { count_by (is_named name.now) entries.old.items ≤ 1 }
    requires fits { ChangeFits change }
    ensures changed { OnOk result (entries.new.items ≡ changed name.now (entry_change change.entry) entries.old.items) }
    ensures unchanged { OnErr result (entries.new.items ≡ entries.old.items) }
{
    if let Some(at) = index_of(entries, name) {
        change_entry(alloc, &mut entries[at], change)?;
    }
    Ok(())
}
