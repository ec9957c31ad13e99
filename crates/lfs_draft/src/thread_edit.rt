//! Edits of the directories of an outline, in the order of the thread.

ghost use Rattle.std.specs.Prelude.{◌≡◌, ◌≤◌, true, All, count_by, OnOk, OnErr};
ghost use Rattle.std.specs.List.{position};
ghost use Rattle.lfs_fs.specs.Directory.{begins_at, entries};
ghost use Rattle.lfs_fs.specs.Entry.{is_named};
ghost use Rattle.lfs_command.specs.DirectoryEdit.{touch};
ghost use Rattle.lfs_draft.specs.Editable.{NamesRise};
ghost use Rattle.lfs_draft.specs.EntryChange.{ChangeFits, entry_change};
ghost use Rattle.lfs_command.specs.ThreadEdit.{add_after, change as change_at, drop_directory, link, touch_first, unlink};

use crate::directory_edit::{absorb, change_in, link_in, touch, touch_last, unlink_in};
use crate::entry_change::EntryChange;
use lfs_fs::{OutlineDirectory, OutlineEntry};
use std::alloc::{AllocError, Global};

/// The place of the first directory that begins at a pair, the lesser block of which stands first.
pub(crate) fn directory_of(directories: &[OutlineDirectory], pair: (u32, u32)) -> Option<usize>
    ensures { result ≡ position (begins_at pair) directories.now }
{
    directories
        .iter()
        .position(|directory| directory.begins_at(pair))
}

/// Puts an entry into the directory of a pair. Want of memory changes nothing.
pub(crate) fn link(
    directories: &mut Vec<OutlineDirectory>,
    pair: (u32, u32),
    entry: OutlineEntry,
) -> Result<(), AllocError>
    requires one { count_by (begins_at pair) directories.old.items ≤ 1 }
    requires rise { NamesRise directories.old.items }
    ensures linked { OnOk result (directories.new.items ≡ link pair entry directories.old.items) }
    ensures unchanged { OnErr result (directories.new.items ≡ directories.old.items) }
{
    if let Some(at) = directory_of(directories, pair) {
        link_in(&mut directories[at], entry)?;
    }
    Ok(())
}

/// Takes the entry of a name out of the directory of a pair.
pub(crate) fn unlink(directories: &mut Vec<OutlineDirectory>, pair: (u32, u32), name: &[u8])
    requires one { count_by (begins_at pair) directories.old.items ≤ 1 }
    requires once { All (λ d. count_by (is_named name.now) (entries d) ≤ 1) directories.old.items }
    ensures { directories.new.items ≡ unlink pair name.now directories.old.items }
{
    if let Some(at) = directory_of(directories, pair) {
        unlink_in(&mut directories[at], name);
    }
}

/// Puts a directory right behind the one of a pair, whose last part is set for the sake of its tail. Want of memory changes
/// nothing.
pub(crate) fn add_after(
    directories: &mut Vec<OutlineDirectory>,
    pair: (u32, u32),
    new: OutlineDirectory,
) -> Result<(), AllocError>
    ensures added { OnOk result (directories.new.items ≡ add_after pair new directories.old.items) }
    ensures unchanged { OnErr result (directories.new.items ≡ directories.old.items) }
{
    if let Some(at) = directory_of(directories, pair) {
        directories.insert(at + 1, new)?;
        touch_last(&mut directories[at]);
    }
    Ok(())
}

/// Changes the entry of a name in the directory of a pair. Want of memory changes nothing.
pub(crate) fn change(
    alloc: Global,
    directories: &mut Vec<OutlineDirectory>,
    pair: (u32, u32),
    name: &[u8],
    change: EntryChange,
) -> Result<(), AllocError>
    requires one { count_by (begins_at pair) directories.old.items ≤ 1 }
    requires once { All (λ d. count_by (is_named name.now) (entries d) ≤ 1) directories.old.items }
    requires fits { ChangeFits change }
    ensures changed { OnOk result (directories.new.items ≡ change_at pair name.now (entry_change change.entry) directories.old.items) }
    ensures unchanged { OnErr result (directories.new.items ≡ directories.old.items) }
{
    if let Some(at) = directory_of(directories, pair) {
        change_in(alloc, &mut directories[at], name, change)?;
    }
    Ok(())
}

/// Takes the directory of a pair out of the thread, unless it is the first; the last part before it is set, and takes up its
/// deltas.
pub(crate) fn drop_directory(directories: &mut Vec<OutlineDirectory>, pair: (u32, u32))
    requires { count_by (begins_at pair) directories.old.items ≤ 1 }
    ensures { directories.new.items ≡ drop_directory pair directories.old.items }
{
    let Some(at) = directory_of(directories, pair) else {
        return;
    };
    if at > 0 {
        let gone = directories.remove(at);
        absorb(&mut directories[at - 1], &gone);
    }
}

/// Sets the first part of a directory.
fn touch_first_part(directory: &mut OutlineDirectory)
    ensures { directory.new ≡ record { first = touch true (λ es. es) directory.old.first; more = directory.old.more } }
{
    touch(&mut directory.parts.first);
}

/// Sets the first part of all, for the sake of the root's attributes.
pub(crate) fn touch_first(directories: &mut Vec<OutlineDirectory>)
    ensures { directories.new.items ≡ touch_first directories.old.items }
{
    if !directories.is_empty() {
        touch_first_part(&mut directories[0]);
    }
}
