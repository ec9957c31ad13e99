//! Edits of a directory: which of its parts is set, and to what.

ghost use Rattle.std.specs.Prelude.{◌≡◌, ◌≤◌, ◌-◌, ◌<◌, ◌⊎◌, true, false, List, ◌∷◌, count_by, flat_map, length, map, MatchBool, OnOk, OnErr};
ghost use Rattle.std.specs.List.{list_all, position};
ghost use Rattle.std.specs.Option.{unwrap_or};
ghost use Rattle.lfs_fs.specs.Directory.{Part, entries, parts as parts_of};
ghost use Rattle.lfs_fs.specs.Entry.{is_named};
ghost use Rattle.lfs_fs.specs.Sound.{Rise};
ghost use Rattle.lfs_fs.specs.State.{delta_of};
ghost use Rattle.lfs_draft.specs.EntryChange.{ChangeFits, entry_change};
ghost use Rattle.lfs_command.specs.EntryEdit.{changed, place, without};
ghost use Rattle.lfs_command.specs.DirectoryEdit.{absorb, absorb_in, change_in, drop_later, has_greater, has_name, has_only, link_in, link_parts, taking_up, touch, touch_last, unlink_in};

use crate::entry_change::EntryChange;
use crate::entry_edit::{change_named, place, take_out};
use crate::last_names::{comes_last, ends_before};
use lfs_fs::{Delta, OutlineDirectory, OutlineEntry, OutlinePart, names_are_ordered, precedes};
use std::alloc::{AllocError, Global};

/// Whether a part has an entry of a name. Takes no time to speak of where the last one has it.
pub(crate) fn has_name(part: &OutlinePart, name: &[u8]) -> bool
    ensures { result ≡ has_name name.now part.now }
{
    match part.entries.last() {
        Some(entry) if entry.is_named(name) => true,
        _ => part.entries.iter().any(|entry| entry.is_named(name)),
    }
}

/// Whether an entry of a part has a greater name.
fn has_greater(part: &OutlinePart, name: &[u8]) -> bool
    ensures { result ≡ has_greater name.now part.now }
{
    part.entries.iter().any(|entry| precedes(name, &entry.name))
}

/// Puts an entry into a part, which is set. Want of memory changes nothing.
fn place_in(part: &mut OutlinePart, entry: OutlineEntry) -> Result<(), AllocError>
    requires { Rise part.old.entries }
    ensures placed { OnOk result (part.new ≡ touch true (place entry) part.old) }
    ensures unchanged { OnErr result (part.new ≡ part.old) }
{
    place(&mut part.entries, entry)?;
    part.dirty = true;
    Ok(())
}

/// Takes the entries of a name out of a part, which is set where it had one.
fn take_out_of(part: &mut OutlinePart, name: &[u8])
    ensures { part.new ≡ touch (has_name name.now part.old) (without name.now) part.old }
{
    if has_name(part, name) {
        part.dirty = true;
    }
    take_out(&mut part.entries, name);
}

/// The place of the first part that has a greater name.
fn first_greater(parts: &[OutlinePart], name: &[u8]) -> Option<usize>
    ensures { result ≡ position (has_greater name.now) parts.now }
{
    parts.iter().position(|part| has_greater(part, name))
}

/// The place of the part where a name belongs: the first one that has a greater name, else the last one. Takes no time to speak of where
/// the name comes last.
fn parent_among(parts: &[OutlinePart], name: &[u8]) -> usize
    requires some { 0 < length parts.now }
    requires rise { Rise (flat_map (λ p. p.entries) parts.now) }
    ensures { result ≡ unwrap_or (position (has_greater name.now) parts.now) (length parts.now - 1) }
{
    names_are_ordered();
    let last = parts.len() - 1;
    if ends_before(&parts[last], name) {
        return last;
    }
    first_greater(parts, name).unwrap_or(last)
}

/// Puts an entry into the part where its name belongs, which is set. Want of memory changes nothing.
fn link_among(parts: &mut Vec<OutlinePart>, entry: OutlineEntry) -> Result<(), AllocError>
    requires some { 0 < length parts.old.items }
    requires rise { Rise (flat_map (λ p. p.entries) parts.old.items) }
    ensures linked { OnOk result ((p : Part) (ps : List Part) → parts.old.items ≡ p ∷ ps → parts.new.items ≡ parts_of (link_parts entry p ps)) }
    ensures unchanged { OnErr result (parts.new.items ≡ parts.old.items) }
{
    let at = parent_among(parts, &entry.name);
    place_in(&mut parts[at], entry)?;
    Ok(())
}

/// Whether a name belongs into a directory's first part: there is no other, or it has a greater name. Takes no time to speak of where the
/// name comes last.
fn belongs_first(directory: &OutlineDirectory, name: &[u8]) -> bool
    requires { Rise (entries directory.now) }
    ensures { MatchBool result
        ((length directory.now.more ≡ 0) ⊎ (has_greater name.now directory.now.first ≡ true))
        ((0 < length directory.now.more) × (has_greater name.now directory.now.first ≡ false)) }
{
    names_are_ordered();
    if directory.parts.more.is_empty() {
        return true;
    }
    if comes_last(directory, name) {
        return false;
    }
    has_greater(&directory.parts.first, name)
}

/// Puts an entry into the part of a directory where its name belongs, which is set. Want of memory changes nothing.
pub(crate) fn link_in(
    directory: &mut OutlineDirectory,
    entry: OutlineEntry,
) -> Result<(), AllocError>
    requires { Rise (entries directory.old) }
    ensures linked { OnOk result (directory.new ≡ link_in entry directory.old) }
    ensures unchanged { OnErr result (directory.new ≡ directory.old) }
{
    if belongs_first(directory, &entry.name) {
        place_in(&mut directory.parts.first, entry)?;
    } else {
        link_among(&mut directory.parts.more, entry)?;
    }
    Ok(())
}

/// Whether all entries of a part have a name.
fn all_named(part: &OutlinePart, name: &[u8]) -> bool
    ensures { result ≡ list_all (is_named name.now) part.now.entries }
{
    part.entries.iter().all(|entry| entry.is_named(name))
}

/// Whether a part has an entry of a name, and nothing else.
pub(crate) fn has_only(part: &OutlinePart, name: &[u8]) -> bool
    ensures { result ≡ has_only name.now part.now }
{
    !part.entries.is_empty() && all_named(part, name)
}

/// The place of the first part that has an entry of a name, and nothing else.
fn first_with_only(parts: &[OutlinePart], name: &[u8]) -> Option<usize>
    ensures { result ≡ position (has_only name.now) parts.now }
{
    parts.iter().position(|part| has_only(part, name))
}

/// The place of the first part that has an entry of a name.
fn first_with(parts: &[OutlinePart], name: &[u8]) -> Option<usize>
    requires { count_by (is_named name.now) (flat_map (λ p. p.entries) parts.now) ≤ 1 }
    ensures { result ≡ position (has_name name.now) parts.now }
{
    if parts.is_empty() {
        return None;
    }
    let last = parts.len() - 1;
    if has_name(&parts[last], name) {
        return Some(last);
    }
    parts.iter().position(|part| has_name(part, name))
}

/// Takes the part that has only the entry of a name out of those after a first one. The part before it is set and takes up its delta.
fn drop_emptied(first: &mut OutlinePart, more: &mut Vec<OutlinePart>, name: &[u8])
    requires { count_by (has_only name.now) more.old.items ≤ 1 }
    ensures { record { first = first.new; more = more.new.items } ≡ drop_later (has_only name.now) first.old more.old.items }
{
    let Some(at) = first_with_only(more, name) else {
        return;
    };
    let gone = more.remove(at);
    if at > 0 {
        absorb_into(&mut more[at - 1], &gone.delta);
    } else {
        absorb_into(first, &gone.delta);
    }
}

/// Takes the entry of a name out of the parts after a first one that doesn't have it. A part that has no other entry goes, another part
/// that had it is set.
fn unlink_later(first: &mut OutlinePart, more: &mut Vec<OutlinePart>, name: &[u8])
    requires elsewhere { has_name name.now first.old ≡ false }
    requires once { count_by (is_named name.now) (flat_map (λ p. p.entries) more.old.items) ≤ 1 }
    ensures { record { first = first.new; more = more.new.items } ≡ unlink_in name.now (record { first = first.old; more = more.old.items }) }
{
    let Some(at) = first_with(more, name) else {
        return;
    };
    if has_only(&more[at], name) {
        drop_emptied(first, more, name);
    } else {
        take_out_of(&mut more[at], name);
    }
}

/// Takes the entry of a name out of a first part and those after it. A later part that has no other entry goes, another part that had it
/// is set. Takes time that is linear in a part, if the first or the last one has the name.
fn unlink_parts(first: &mut OutlinePart, more: &mut Vec<OutlinePart>, name: &[u8])
    requires { count_by (is_named name.now) (flat_map (λ p. p.entries) (first.old ∷ more.old.items)) ≤ 1 }
    ensures { record { first = first.new; more = more.new.items } ≡ unlink_in name.now (record { first = first.old; more = more.old.items }) }
{
    if has_name(first, name) {
        take_out_of(first, name);
    } else {
        unlink_later(first, more, name);
    }
}

/// Takes the entry of a name out of a directory. A later part that has no other entry leaves the directory, and the part before it takes
/// up its delta; another part that had the entry is set.
pub(crate) fn unlink_in(directory: &mut OutlineDirectory, name: &[u8])
    requires { count_by (is_named name.now) (entries directory.old) ≤ 1 }
    ensures { directory.new ≡ unlink_in name.now directory.old }
{
    let parts = &mut *directory.parts;
    unlink_parts(&mut parts.first, &mut parts.more, name);
}

/// Changes the entry of a name of a part, which is set. Want of memory changes nothing.
fn change_in_part(
    alloc: Global,
    part: &mut OutlinePart,
    name: &[u8],
    change: EntryChange,
) -> Result<(), AllocError>
    requires once { count_by (is_named name.now) part.old.entries ≤ 1 }
    requires fits { ChangeFits change }
    ensures changed { OnOk result (part.new ≡ touch true (changed name.now (entry_change change.entry)) part.old) }
    ensures unchanged { OnErr result (part.new ≡ part.old) }
{
    change_named(alloc, &mut part.entries, name, change)?;
    part.dirty = true;
    Ok(())
}

/// Changes the entry of a name in the part of some that has it, which is set. Want of memory changes nothing.
fn change_among(
    alloc: Global,
    parts: &mut Vec<OutlinePart>,
    name: &[u8],
    change: EntryChange,
) -> Result<(), AllocError>
    requires once { count_by (is_named name.now) (flat_map (λ p. p.entries) parts.old.items) ≤ 1 }
    requires fits { ChangeFits change }
    ensures changed { OnOk result (parts.new.items
        ≡ map (λ p. touch (has_name name.now p) (changed name.now (entry_change change.entry)) p) parts.old.items) }
    ensures unchanged { OnErr result (parts.new.items ≡ parts.old.items) }
{
    if let Some(at) = first_with(parts, name) {
        change_in_part(alloc, &mut parts[at], name, change)?;
    }
    Ok(())
}

/// Changes the entry of a name of a directory; the part that has it is set. Want of memory changes nothing.
pub(crate) fn change_in(
    alloc: Global,
    directory: &mut OutlineDirectory,
    name: &[u8],
    change: EntryChange,
) -> Result<(), AllocError>
    requires once { count_by (is_named name.now) (entries directory.old) ≤ 1 }
    requires fits { ChangeFits change }
    ensures changed { OnOk result (directory.new ≡ change_in name.now (entry_change change.entry) directory.old) }
    ensures unchanged { OnErr result (directory.new ≡ directory.old) }
{
    if has_name(&directory.parts.first, name) {
        change_in_part(alloc, &mut directory.parts.first, name, change)?;
    } else {
        change_among(alloc, &mut directory.parts.more, name, change)?;
    }
    Ok(())
}

/// Sets a part.
pub(crate) fn touch(part: &mut OutlinePart)
    ensures { part.new ≡ touch true (λ es. es) part.old }
{
    part.dirty = true;
}

/// Sets the last of a first part and those behind it.
fn touch_last_part(first: &mut OutlinePart, more: &mut Vec<OutlinePart>)
    ensures { record { first = first.new; more = more.new.items } ≡ touch_last (record { first = first.old; more = more.old.items }) }
{
    match more.last_mut() {
        Some(part) => touch(part),
        None => touch(first),
    }
}

/// Sets the last part of a directory, for the sake of its tail.
pub(crate) fn touch_last(directory: &mut OutlineDirectory)
    ensures { directory.new ≡ touch_last directory.old }
{
    let parts = &mut *directory.parts;
    touch_last_part(&mut parts.first, &mut parts.more);
}

/// Sets a part, which takes up a delta.
fn absorb_into(part: &mut OutlinePart, delta: &Delta)
    ensures { part.new ≡ taking_up delta.now part.old }
{
    part.delta = part.delta.joined(delta);
    part.dirty = true;
}

/// Sets the last of a first part and those behind it, which takes up a delta.
fn absorb_last(first: &mut OutlinePart, more: &mut Vec<OutlinePart>, delta: &Delta)
    ensures { record { first = first.new; more = more.new.items } ≡ absorb_in delta.now first.old more.old.items }
{
    match more.last_mut() {
        Some(part) => absorb_into(part, delta),
        None => absorb_into(first, delta),
    }
}

/// Sets the last part of a directory, for the sake of its tail and of a delta that it takes up.
fn absorb_in(directory: &mut OutlineDirectory, delta: &Delta)
    ensures { directory.new ≡ absorb_in delta.now directory.old.first directory.old.more }
{
    let parts = &mut *directory.parts;
    absorb_last(&mut parts.first, &mut parts.more, delta);
}

/// The deltas of parts together.
fn delta_of_parts(parts: &[OutlinePart]) -> Delta
    ensures { result ≡ delta_of parts.now }
{
    let mut delta = Delta::none();
    'each: for part in parts {
        delta = delta.joined(&part.delta);
    }
    delta
}

/// Sets the last part of a directory, which takes up the deltas of one that goes.
pub(crate) fn absorb(directory: &mut OutlineDirectory, gone: &OutlineDirectory)
    ensures { directory.new ≡ absorb directory.old gone.now }
{
    let delta = gone
        .parts
        .first
        .delta
        .joined(&delta_of_parts(&gone.parts.more));
    absorb_in(directory, &delta);
}
