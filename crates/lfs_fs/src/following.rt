//! Names that come after those of the parts and entries before them.

ghost use Rattle.std.specs.Prelude.{◌≡◌, ◌++◌, true, All, IfSome, IfNone, IsTrue, MatchBool, []};
ghost use Rattle.lfs_fs.specs.Gathering.{EndsAtOrAfter, EndsWith, part_entries};
ghost use Rattle.lfs_fs.specs.NameOrder.{precedes};
ghost use Rattle.lfs_fs.specs.Sound.{Rise};

use crate::names::precedes;
use crate::outline_entry::OutlineEntry;
use crate::outline_part::OutlinePart;

/// The last entry of parts, if they have one.
fn last_entry(parts: &[OutlinePart]) -> Option<&OutlineEntry>
    ensures found { IfSome result (λ entry. EndsWith (part_entries parts.now) entry.now) }
    ensures none { IfNone result (part_entries parts.now ≡ []) }
{
    let mut index = parts.len();
    'parts: while index > 0 {
        index -= 1;
        let part = &parts[index];
        if let Some(entry) = part.entries.last() {
            return Some(entry);
        }
    }
    None
}

/// Whether a name comes after that of an entry.
fn comes_after(entry: &OutlineEntry, name: &[u8]) -> bool
    ensures { result ≡ precedes entry.now.name name.now }
{
    precedes(&entry.name, name)
}

/// Whether a name comes after those of parts in order.
fn comes_behind(parts: &[OutlinePart], name: &[u8]) -> bool
    requires { Rise (part_entries parts.now) }
    ensures { MatchBool result (All (λ e. precedes e.name name.now ≡ true) (part_entries parts.now)) (EndsAtOrAfter (part_entries parts.now) name.now) }
{
    match last_entry(parts) {
        Some(last) => comes_after(last, name),
        None => true,
    }
}

/// Whether a name comes after those of parts in order and of the entries behind them.
pub(crate) fn comes_last(parts: &[OutlinePart], entries: &[OutlineEntry], name: &[u8]) -> bool
    requires { Rise (part_entries parts.now ++ entries.now) }
    ensures { let before = part_entries parts.now ++ entries.now in
        MatchBool result (All (λ e. precedes e.name name.now ≡ true) before) (EndsAtOrAfter before name.now) }
{
    match entries.last() {
        Some(last) => comes_after(last, name),
        None => comes_behind(parts, name),
    }
}

/// Whether the names of entries that rise come after those of parts in order.
pub(crate) fn come_last(parts: &[OutlinePart], entries: &[OutlineEntry]) -> bool
    requires parts { Rise (part_entries parts.now) }
    requires entries { Rise entries.now }
    ensures { IsTrue result → Rise (part_entries parts.now ++ entries.now) }
{
    match entries.split_first() {
        Some((first, _)) => comes_behind(parts, &first.name),
        None => true,
    }
}
