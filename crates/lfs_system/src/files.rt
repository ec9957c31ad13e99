//! Files that runs of the program don't take from each other.

use crate::folders::parent;
use lfs_sink::{Text, write_text};
use std::fs::{self, File, Metadata, TryLockError};
use std::io::{self, ErrorKind, Read};
use std::os::unix::fs::{MetadataExt, fchown};
use std::thread::sleep;
use std::time::Duration;

/// The rights to write of owner, group and others.
const WRITE_RIGHTS: u32 = 0o222;

/// How often a file is tried for that others replace meanwhile.
pub const MOST_TRIES: u32 = 1_000;

/// How often, and how long each time, a run waits for another one that gives new files their names. What a killed run left looks the same.
const MOST_WAITS: u32 = 100;

/// In milliseconds.
const WAIT: u64 = 2;

/// What is said of a folder, a device or the like.
fn is_no_file() -> io::Error {
    io::Error::new(ErrorKind::InvalidInput, "not a regular file")
}

/// What is said of a file whose lock another run holds.
fn is_locked() -> io::Error {
    io::Error::new(ErrorKind::ResourceBusy, "another run is changing it")
}

/// What is said of a folder whose contents are asked for.
fn is_folder() -> io::Error {
    io::Error::new(ErrorKind::IsADirectory, "it is a folder")
}

/// What is said of something that isn't what was found under its name.
pub fn is_replaced() -> io::Error {
    io::Error::new(
        ErrorKind::Other,
        "another program has put something else in its place",
    )
}

/// What is said of a name that is taken.
fn is_there() -> io::Error {
    io::Error::new(ErrorKind::AlreadyExists, "something is there already")
}

/// What is said of a file that nobody has the right to write.
fn is_protected() -> io::Error {
    io::Error::new(ErrorKind::PermissionDenied, "is write-protected")
}

/// A file that is read. Only a regular one is opened.
pub fn opened(rt: &HostRuntime, name: &str) -> io::Result<File> {
    if !fs::metadata(rt, name)?.is_file() {
        return Err(is_no_file());
    }
    File::open(rt, name)
}

/// A file whose contents are put, anything but a folder, and the length that it says.
pub fn opened_contents(rt: &HostRuntime, name: &str) -> io::Result<(File, u64)> {
    let file = File::open(rt, name)?;
    let found = file.metadata()?;
    if found.is_dir() {
        return Err(is_folder());
    }
    Ok((file, found.len()))
}

/// Refuses a name under which something is, if it were a link that leads nowhere.
pub fn must_be_new(rt: &HostRuntime, name: &str) -> io::Result<()> {
    match fs::symlink_metadata(rt, name) {
        Ok(_) => Err(is_there()),
        Err(error) if error.kind() == ErrorKind::NotFound => Ok(()),
        Err(error) => Err(error),
    }
}

/// Whether both are said of one and the same file or folder.
pub fn is_same(one: &Metadata, other: &Metadata) -> bool {
    one.dev() == other.dev() && one.ino() == other.ino()
}

/// What a name leads to, open, if that is what was found there before; none if it is something else by now.
pub fn opened_same(rt: &HostRuntime, name: &str, found: &Metadata) -> io::Result<Option<File>> {
    let file = File::open(rt, name)?;
    if is_same(&file.metadata()?, found) {
        Ok(Some(file))
    } else {
        Ok(None)
    }
}

/// A file that is read, but for one that a link leads to.
pub fn opened_entry(rt: &HostRuntime, name: &str) -> io::Result<File> {
    for _ in 0..MOST_TRIES {
        let found = fs::symlink_metadata(rt, name)?;
        if !found.is_file() {
            return Err(is_no_file());
        }
        if let Some(file) = opened_same(rt, name, &found)? {
            return Ok(file);
        }
    }
    Err(is_replaced())
}

/// Locks a file for this run, as long as it is open.
fn lock(file: &File) -> io::Result<()> {
    match file.try_lock() {
        Ok(()) => Ok(()),
        Err(TryLockError::WouldBlock) => Err(is_locked()),
        Err(TryLockError::Error(error)) => Err(error),
    }
}

/// Whether a name leads to an open file still, and not through a link.
fn leads_to(rt: &HostRuntime, name: &str, file: &File) -> io::Result<bool> {
    Ok(is_same(&fs::symlink_metadata(rt, name)?, &file.metadata()?))
}

/// Whether another run may have given its new journal a name, and not yet its new image: that one waits under its own, and no journal does.
fn is_between(rt: &HostRuntime, name: &str) -> io::Result<bool> {
    let new_image = format!(in rt.alloc(); "{name}.new")?;
    let new_journal = format!(in rt.alloc(); "{name}.lfsj.new")?;
    Ok(fs::exists(rt, new_image.as_str())? && !fs::exists(rt, new_journal.as_str())?)
}

/// Whether the name of an image leads to an open file still, after waiting for a run that gives new files their names.
pub fn stays(rt: &HostRuntime, name: &str, file: &File) -> io::Result<bool> {
    for _ in 0..MOST_WAITS {
        if !is_between(rt, name)? {
            return leads_to(rt, name, file);
        }
        sleep(rt, Duration::from_millis(WAIT));
    }
    leads_to(rt, name, file)
}

/// The file of a name, whose lock this run holds then.
pub fn locked(rt: &HostRuntime, name: &str) -> io::Result<File> {
    for _ in 0..MOST_TRIES {
        let file = opened(rt, name)?;
        lock(&file)?;
        if leads_to(rt, name, &file)? {
            return Ok(file);
        }
    }
    Err(is_locked())
}

/// Whether an error says that another run holds the file's lock.
fn says_locked(error: &io::Error) -> bool {
    error.kind() == ErrorKind::ResourceBusy
}

/// Takes away what an earlier run left under a name: a regular file whose lock no run holds.
fn take_leftover_away(rt: &HostRuntime, name: &str) -> io::Result<()> {
    if !fs::symlink_metadata(rt, name)?.is_file() {
        return Err(is_no_file());
    }
    let left = File::open(rt, name)?;
    lock(&left)?;
    if leads_to(rt, name, &left)? {
        fs::remove_file(rt, name)?;
    }
    Ok(())
}

/// Whether a name leads to a new file, whose lock this run holds. Where that can't be known the file is taken away, but
/// not where another run holds its lock as a leftover's, and takes it away itself.
fn is_held(rt: &HostRuntime, name: &str, file: &File) -> io::Result<bool> {
    let held = match lock(file) {
        Ok(()) => leads_to(rt, name, file),
        Err(error) => Err(error),
    };
    if let Err(error) = &held
        && !says_locked(error)
    {
        let _ = fs::remove_file(rt, name);
    }
    held
}

/// A new file, whose lock this run holds. What an earlier run left under the name is replaced.
fn created(rt: &HostRuntime, name: &str) -> io::Result<File> {
    for _ in 0..MOST_TRIES {
        match File::create_new(rt, name) {
            Ok(file) => {
                if is_held(rt, name, &file)? {
                    return Ok(file);
                }
            }
            Err(error) if error.kind() == ErrorKind::AlreadyExists => {
                take_leftover_away(rt, name)?;
            }
            Err(error) => return Err(error),
        }
    }
    Err(is_locked())
}

/// Gives a file the owner and the group that another one has, or the group alone, as far as the system lets this user.
fn give_owner(file: &File, old: &Metadata) -> io::Result<()> {
    let made = file.metadata()?;
    if made.uid() == old.uid() && made.gid() == old.gid() {
        return Ok(());
    }
    if fchown(file, Some(old.uid()), Some(old.gid())).is_err() {
        let _ = fchown(file, None, Some(old.gid()));
    }
    Ok(())
}

/// What the system says of a file that is to be replaced, where it is there. One that nobody has the right to write is refused, also where
/// the user of this run needs no right.
fn writable(rt: &HostRuntime, name: &str) -> io::Result<Option<Metadata>> {
    match fs::metadata(rt, name) {
        Ok(found) if found.mode() & WRITE_RIGHTS == 0 => Err(is_protected()),
        Ok(found) => Ok(Some(found)),
        Err(error) if error.kind() == ErrorKind::NotFound => Ok(None),
        Err(error) => Err(error),
    }
}

/// Fills a new file, with owner, group and rights of the old one where there is one, and waits until the disk has it. The rights come
/// behind the owner, since a change of that takes some of them away.
fn fill<T: Text>(
    rt: &HostRuntime,
    file: &mut File,
    text: &T,
    old: Option<Metadata>,
) -> io::Result<()> {
    if let Some(old) = old {
        give_owner(file, &old)?;
        file.set_permissions(old.permissions())?;
    }
    write_text(rt.alloc(), text, file)?;
    file.sync_all()
}

/// A new file of a text, whose lock this run holds, with owner, group and rights of the file `like` where there is one. Where it can't be
/// filled it is taken away again.
pub fn written<T: Text>(rt: &HostRuntime, name: &str, text: &T, like: &str) -> io::Result<File> {
    let old = writable(rt, like)?;
    let mut file = created(rt, name)?;
    match fill(rt, &mut file, text, old) {
        Ok(()) => Ok(file),
        Err(error) => {
            let _ = fs::remove_file(rt, name);
            Err(error)
        }
    }
}

/// Waits until the disk has the names of the folder that a name stands in, where the system can say so: behind the renames, which are
/// done by then.
pub fn sync_folder(rt: &HostRuntime, name: &str) {
    if let Ok(folder) = File::open(rt, parent(name)) {
        let _ = folder.sync_all();
    }
}

/// Gives a file another name, in place of a regular file.
pub fn replace(rt: &HostRuntime, from: &str, to: &str) -> io::Result<()> {
    if !fs::symlink_metadata(rt, to)?.is_file() {
        return Err(is_no_file());
    }
    fs::rename(rt, from, to)
}

/// Gives a file a name that no file has. Where its own can't be taken away it keeps that alone.
pub fn name_anew(rt: &HostRuntime, from: &str, to: &str) -> io::Result<()> {
    fs::hard_link(rt, from, to)?;
    match fs::remove_file(rt, from) {
        Ok(()) => Ok(()),
        Err(error) => {
            let _ = fs::remove_file(rt, to);
            Err(error)
        }
    }
}

/// Gives a file another name, in place of a regular file that has it, or of nothing.
pub fn settle(rt: &HostRuntime, from: &str, to: &str) -> io::Result<()> {
    match fs::symlink_metadata(rt, to) {
        Ok(found) if found.is_file() => fs::rename(rt, from, to),
        Ok(_) => Err(is_no_file()),
        Err(error) if error.kind() == ErrorKind::NotFound => name_anew(rt, from, to),
        Err(error) => Err(error),
    }
}
