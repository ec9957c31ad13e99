//! What becomes of old entries where new ones take their place.

ghost use Rattle.std.specs.Prelude.{◌≡◌, ◌∷◌, ◌++◌, List, map, IfOk, OnOk};
ghost use Rattle.std.specs.List.{position_or_len};
ghost use Rattle.lfs_meta.specs.Entry.{StoredEntry};
ghost use Rattle.lfs_pair.specs.Difference.{Comes, fates, is_same_name};
ghost use Rattle.lfs_pair.specs.DifferenceSeen.{fate_seen};

use crate::edits::name_kind;
use crate::fate::Fate;
use lfs_meta::Entry;
use std::alloc::{AllocError, Global};

/// Whether two entries are of one kind and have one name.
fn is_same_name(entry: &Entry, other: &Entry) -> bool
    ensures { result ≡ is_same_name entry.now other.now }
{
    name_kind(entry.kind) == name_kind(other.kind) && entry.name.as_slice() == other.name.as_slice()
}

/// How many entries stand before the first one of this kind and name: all of them where there is none.
fn place_of(entry: &Entry, entries: &[Entry]) -> usize
    ensures { result ≡ position_or_len (is_same_name entry.now) entries.now }
{
    entries
        .iter()
        .take_while(|other| !is_same_name(entry, other))
        .count()
}

/// Adds entries that come.
fn push_coming<'a>(aligned: &mut Vec<Fate<'a>>, entries: &'a [Entry]) -> Result<(), AllocError>
    ensures { OnOk result (map fate_seen aligned.new.items ≡ map fate_seen aligned.old.items ++ map Comes entries.now) }
{
    for entry in entries {
        aligned.push(Fate::Comes(entry))?;
    }
    Ok(())
}

/// Adds what becomes of an old entry, behind the new ones that come before its own. Hands out the new ones that are left.
fn push_fate<'a>(
    aligned: &mut Vec<Fate<'a>>,
    entry: &'a Entry,
    entries: &'a [Entry],
) -> Result<&'a [Entry], AllocError>
    ensures { IfOk result (λ left. (more : List StoredEntry) → map fate_seen aligned.new.items ++ fates more left.now
        ≡ map fate_seen aligned.old.items ++ fates (entry.now ∷ more) entries.now) }
{
    let count = place_of(entry, entries);
    if count < entries.len() {
        push_coming(aligned, &entries[..count])?;
        aligned.push(Fate::Stays(entry, &entries[count]))?;
        return Ok(&entries[count + 1..]);
    }
    aligned.push(Fate::Goes(entry))?;
    Ok(entries)
}

/// What becomes of old entries where new ones take their place: an old one stays where a new one has its kind and name, and else
/// goes. The new ones stand in their order.
pub(crate) fn fates<'a>(
    alloc: Global,
    old: &'a [Entry],
    new: &'a [Entry],
) -> Result<Vec<Fate<'a>>, AllocError>
    ensures { IfOk result (λ aligned. map fate_seen aligned.items ≡ fates old.now new.now) }
{
    let mut aligned = Vec::new(alloc);
    let mut left = new;
    for entry in old {
        left = push_fate(&mut aligned, entry, left)?;
    }
    push_coming(&mut aligned, left)?;
    Ok(aligned)
}
