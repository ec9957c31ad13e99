//! What commands make of the directories of an outline, in the order of the thread.

ghost use Rattle.std.specs.Prelude.{◌≡◌, ◌≤◌, ◌<◌, Some, count_by, length, IfOk, OnOk};
ghost use Rattle.std.specs.Option.{option_and_then};
ghost use Rattle.lfs_meta.specs.Fits.{BodyFits};
ghost use Rattle.lfs_fs.specs.AsStored.{stored_body};
ghost use Rattle.lfs_fs.specs.Directory.{begins_at};
ghost use Rattle.lfs_fs.specs.Entry.{Directory_at, Entry, target};
ghost use Rattle.lfs_fs.specs.OutlineHeld.{outline_body_held};
ghost use Rattle.lfs_fs.specs.Tree.{entry_in};
ghost use Rattle.lfs_fs.specs.Volume.{Volume};
ghost use Rattle.lfs_command.specs.Edited.{drop_target, empty_directory, new_entry, put_file, renamed, with_directories};
ghost use Rattle.lfs_draft.specs.Editable.{BeginOnce, NamedOnce, NamesRise};
ghost use Rattle.lfs_command.specs.ThreadEdit.{add_after, link, unlink};

use crate::copying::renamed;
use crate::entry_change::EntryChange;
use crate::last_names::entry_in;
use crate::parent::Parent;
use crate::thread_edit::{add_after, change, drop_directory, link, unlink};
use lfs_fs::{Delta, OutlineBody, OutlineDirectory, OutlineEntry, OutlinePart};
use std::alloc::{AllocError, Global};

/// An entry without attributes.
pub fn new_entry(alloc: Global, name: &[u8], body: OutlineBody) -> Result<OutlineEntry, AllocError>
    requires name { length name.now < 1023 }
    requires body { BodyFits (stored_body (outline_body_held body)) }
    ensures { IfOk result (λ entry. entry ≡ new_entry name.now (outline_body_held body)) }
{
    Ok(OutlineEntry {
        name: Vec::from_slice(alloc, name)?,
        body,
        attributes: Vec::new(alloc),
    })
}

/// A directory without entries.
fn empty_directory(alloc: Global, pair: (u32, u32)) -> Result<OutlineDirectory, AllocError>
    ensures { IfOk result (λ directory. directory ≡ empty_directory pair) }
{
    let part = OutlinePart {
        pair,
        entries: Vec::new(alloc),
        delta: Delta::none(),
        dirty: true,
    };
    OutlineDirectory::new(alloc, part, Vec::new(alloc))
}

/// Puts a new directory under a name, and into the thread behind the directory that has the name.
pub(crate) fn make_directory(
    alloc: Global,
    directories: &mut Vec<OutlineDirectory>,
    parent: Parent<'_>,
    pair: (u32, u32),
) -> Result<(), AllocError>
    requires once { BeginOnce directories.old.items }
    requires rise { NamesRise directories.old.items }
    requires name { length parent.name.now < 1023 }
    ensures { OnOk result (directories.new.items
        ≡ add_after parent.entry.pair (empty_directory pair) (link parent.entry.pair (new_entry parent.entry.name.now (Directory_at pair)) directories.old.items)) }
{
    let entry = new_entry(alloc, parent.name, OutlineBody::Directory(pair.0, pair.1))?;
    link(directories, parent.pair, entry)?;
    add_after(directories, parent.pair, empty_directory(alloc, pair)?)?;
    Ok(())
}

/// Puts a file under a name: a new one, or another body of the entry that is there.
pub(crate) fn put_file(
    alloc: Global,
    directories: &mut Vec<OutlineDirectory>,
    parent: Parent<'_>,
    body: OutlineBody,
) -> Result<(), AllocError>
    requires once { BeginOnce directories.old.items }
    requires named { NamedOnce directories.old.items }
    requires rise { NamesRise directories.old.items }
    requires name { length parent.name.now < 1023 }
    requires body { BodyFits (stored_body (outline_body_held body)) }
    ensures { OnOk result ((v : Volume) → v.directories ≡ directories.old.items
        → with_directories v directories.new.items
        ≡ put_file v (outline_body_held body) (Some (parent.entry.pair, parent.entry.name.now)) (entry_in directories.old.items parent.entry.pair parent.entry.name.now)) }
{
    if entry_in(directories, parent.pair, parent.name).is_some() {
        change(
            alloc,
            directories,
            parent.pair,
            parent.name,
            EntryChange::Body(body),
        )?;
    } else {
        let entry = new_entry(alloc, parent.name, body)?;
        link(directories, parent.pair, entry)?;
    }
    Ok(())
}

/// The directory that the entry of a name leads to.
pub(crate) fn target_of(directories: &[OutlineDirectory], parent: Parent<'_>) -> Option<(u32, u32)>
    requires { NamesRise directories.now }
    ensures { result ≡ option_and_then target (entry_in directories.now parent.entry.pair parent.entry.name.now) }
{
    entry_in(directories, parent.pair, parent.name)?.target()
}

/// Takes the entry of a name out, with the directory that it leads to.
pub(crate) fn remove(
    directories: &mut Vec<OutlineDirectory>,
    parent: Parent<'_>,
    leads_to: Option<(u32, u32)>,
)
    requires once { BeginOnce directories.old.items }
    requires named { NamedOnce directories.old.items }
    ensures { directories.new.items ≡ drop_target leads_to (unlink parent.entry.pair parent.entry.name.now directories.old.items) }
{
    unlink(directories, parent.pair, parent.name);
    if let Some(pair) = leads_to {
        drop_directory(directories, pair);
    }
}

/// A copy of the entry of a name under another name.
fn copied(
    alloc: Global,
    directories: &[OutlineDirectory],
    parent: Parent<'_>,
    name: &[u8],
) -> Result<OutlineEntry, AllocError>
    requires rise { NamesRise directories.now }
    requires there { (e : Entry) × (entry_in directories.now parent.pair parent.name.now ≡ Some e) }
    requires name { length name.now < 1023 }
    ensures { IfOk result (λ copy. (e : Entry) → entry_in directories.now parent.entry.pair parent.entry.name.now ≡ Some e → copy ≡ renamed name.now e) }
{
    match entry_in(directories, parent.pair, parent.name) {
        Some(entry) => renamed(alloc, entry, name),
        None => unreachable!(),
    }
}

/// Takes the entry of a name out, and puts it under another name.
pub(crate) fn move_entry(
    alloc: Global,
    directories: &mut Vec<OutlineDirectory>,
    from: Parent<'_>,
    to: Parent<'_>,
) -> Result<(), AllocError>
    requires once { BeginOnce directories.old.items }
    requires named { NamedOnce directories.old.items }
    requires rise { NamesRise directories.old.items }
    requires there { (e : Entry) × (entry_in directories.old.items from.pair from.name.now ≡ Some e) }
    requires name { length to.name.now < 1023 }
    ensures { OnOk result ((e : Entry) → entry_in directories.old.items from.entry.pair from.entry.name.now ≡ Some e
        → directories.new.items ≡ link to.entry.pair (renamed to.entry.name.now e) (unlink from.entry.pair from.entry.name.now directories.old.items)) }
{
    let entry = copied(alloc, directories, from, to.name)?;
    unlink(directories, from.pair, from.name);
    link(directories, to.pair, entry)?;
    Ok(())
}
