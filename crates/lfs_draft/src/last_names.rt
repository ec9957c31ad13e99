//! Names that are sought at the end of a directory first, where they rise.

ghost use Rattle.std.specs.Prelude.{◌≡◌, true, All, Some, find, IfSome};
ghost use Rattle.std.specs.Option.{option_map};
ghost use Rattle.lfs_fs.specs.Directory.{entries};
ghost use Rattle.lfs_fs.specs.Entry.{is_named};
ghost use Rattle.lfs_fs.specs.NameOrder.{precedes};
ghost use Rattle.lfs_fs.specs.Sound.{Rise};
ghost use Rattle.lfs_fs.specs.Tree.{entry_in};
ghost use Rattle.lfs_draft.specs.Editable.{NamesRise};
ghost use Rattle.lfs_draft.specs.LastNames.{EndsBefore, IsLastPart};

use lfs_fs::{
    OutlineDirectory, OutlineEntry, OutlinePart, directory_at, names_are_ordered, precedes,
};

/// Whether the last entry of a part comes before a name.
pub(crate) fn ends_before(part: &OutlinePart, name: &[u8]) -> bool
    ensures { result ≡ true → EndsBefore name.now part.now.entries }
{
    match part.entries.last() {
        Some(entry) => precedes(&entry.name, name),
        None => false,
    }
}

/// The last part of a directory.
pub(crate) fn last_part(directory: &OutlineDirectory) -> &OutlinePart
    ensures { IsLastPart directory.now result.now }
{
    match directory.parts.more.last() {
        Some(part) => part,
        None => &directory.parts.first,
    }
}

/// Whether the last entry of a directory's last part comes before a name; then all entries of the directory do.
pub(crate) fn comes_last(directory: &OutlineDirectory, name: &[u8]) -> bool
    requires { Rise (entries directory.now) }
    ensures { result ≡ true → All (λ e. precedes e.name name.now ≡ true) (entries directory.now) }
{
    names_are_ordered();
    ends_before(last_part(directory), name)
}

/// The last entry of a directory's last part, where it has a name.
fn last_named<'a>(directory: &'a OutlineDirectory, name: &[u8]) -> Option<&'a OutlineEntry>
    requires { Rise (entries directory.now) }
    ensures { IfSome result (λ e. find (is_named name.now) (entries directory.now) ≡ Some e.now) }
{
    names_are_ordered();
    let part = last_part(directory);
    match part.entries.last() {
        Some(entry) if entry.is_named(name) => Some(entry),
        _ => None,
    }
}

/// The entry under a name in the directory of a pair, the lesser block first. Takes no time to speak of where the name comes last or is new
/// behind all others.
pub(crate) fn entry_in<'a>(
    directories: &'a [OutlineDirectory],
    pair: (u32, u32),
    name: &[u8],
) -> Option<&'a OutlineEntry>
    requires { NamesRise directories.now }
    ensures { option_map (λ e. e.now) result ≡ entry_in directories.now pair name.now }
{
    names_are_ordered();
    let directory = directory_at(directories, pair)?;
    if comes_last(directory, name) {
        return None;
    }
    if let Some(entry) = last_named(directory, name) {
        return Some(entry);
    }
    lfs_fs::entry_in(directories, pair, name)
}
