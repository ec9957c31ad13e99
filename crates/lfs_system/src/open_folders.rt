//! Folders that are held open, so that what is below one of them is found through no link, however long the path to it is.

use crate::files::{MOST_TRIES, is_replaced, is_same, opened_entry, opened_same};
use crate::folders::{kind_of, names_in};
use lfs_host::HostKind;
use std::alloc::{AllocError, Global};
use std::fs::{self, File, Metadata};
use std::io::{self, ErrorKind};
use std::os::fd::{AsRawFd, RawFd};

/// How many folders below the first one stay open. It is less than most systems let a process open, and more than most paths are deep.
const MOST_OPEN: usize = 64;

/// How the first folder is held.
#[derive(Drop)]
enum Hold {
    /// Nothing below it was asked for yet.
    NotYet,
    /// It is open.
    Open(File),
    /// The system doesn't show a process its open files, so names are taken whole.
    Never,
}

/// The folder that is read or made. Links on the way to it are followed, unless this run has made it.
#[derive(Drop)]
struct First {
    name: String,
    is_made: bool,
    hold: Hold,
}

/// An open folder below the first one.
#[derive(Drop)]
struct OpenFolder {
    /// Its path from the first one on: names with slashes between them.
    path: String,
    folder: File,
}

/// The folders that were gone to. The first name that is asked for is that of the folder below which the others lead; of these none is `.`
/// or `..`. A folder is opened in an open one, and only if it is a folder itself, so no link leads on, whatever another process puts there.
#[derive(Drop)]
pub struct OpenFolders {
    first: Option<First>,
    /// The last ones below it that were opened, in their order.
    open: Vec<OpenFolder>,
}

/// The name by which the system finds what is open under a number.
fn numbered(alloc: Global, number: RawFd) -> Result<String, AllocError> {
    format!(in alloc; "/proc/self/fd/{number}")
}

/// The name by which the system finds what has a name in an open folder.
fn name_within(alloc: Global, folder: RawFd, name: &str) -> Result<String, AllocError> {
    format!(in alloc; "/proc/self/fd/{folder}/{name}")
}

/// What a path has after that of a folder, if it is of the folder or leads through it.
fn path_after<'a>(folder: &str, path: &'a str) -> Option<&'a str> {
    let rest = path.strip_prefix(folder)?;
    if rest.is_empty() {
        return Some(rest);
    }
    rest.strip_prefix('/')
}

/// Opens a folder in an open one, unless a link leads to it. With a slash after its name nothing but a folder is opened.
fn folder_in(rt: &HostRuntime, above: RawFd, name: &str) -> io::Result<File> {
    let place = name_within(rt.alloc(), above, name)?;
    let inside = format!(in rt.alloc(); "{place}/")?;
    for _ in 0..MOST_TRIES {
        let found = fs::symlink_metadata(rt, place.as_str())?;
        if !found.is_dir() {
            return Err(is_replaced());
        }
        if let Some(folder) = opened_same(rt, inside.as_str(), &found)? {
            return Ok(folder);
        }
    }
    Err(is_replaced())
}

/// Whether the system shows what is open under a number, and that it is this.
fn is_shown(rt: &HostRuntime, number: RawFd, open: &Metadata) -> io::Result<bool> {
    let place = numbered(rt.alloc(), number)?;
    Ok(match fs::metadata(rt, place.as_str()) {
        Ok(shown) => is_same(&shown, open),
        Err(_) => false,
    })
}

impl First {
    /// Opens the folder. One that this run has made is refused if a link stands in its place.
    fn opened(&self, rt: &HostRuntime) -> io::Result<File> {
        let slash = if self.name.is_empty() { "" } else { "/" };
        let place = format!(in rt.alloc(); "{}{slash}", self.name)?;
        let folder = File::open(rt, place.as_str())?;
        if self.is_made {
            let named = fs::symlink_metadata(rt, self.name.as_str().trim_end_matches('/'))?;
            if !is_same(&named, &folder.metadata()?) {
                return Err(is_replaced());
            }
        }
        Ok(folder)
    }

    /// The number under which the folder is open; it is opened, unless it is already. None if names are taken whole.
    fn number(&mut self, rt: &HostRuntime) -> io::Result<Option<RawFd>> {
        match &self.hold {
            Hold::Open(folder) => return Ok(Some(folder.as_raw_fd())),
            Hold::Never => return Ok(None),
            Hold::NotYet => {}
        }
        let folder = self.opened(rt)?;
        let number = folder.as_raw_fd();
        if is_shown(rt, number, &folder.metadata()?)? {
            self.hold = Hold::Open(folder);
            Ok(Some(number))
        } else {
            self.hold = Hold::Never;
            Ok(None)
        }
    }
}

impl OpenFolders {
    /// None, and no name was asked for.
    pub fn new(alloc: Global) -> OpenFolders {
        OpenFolders {
            first: None,
            open: Vec::new(alloc),
        }
    }

    /// The path of a name from the first folder on, which is begun with anew if the name leads elsewhere.
    fn path_of<'a>(&mut self, alloc: Global, name: &'a str) -> Result<&'a str, AllocError> {
        if let Some(first) = &self.first
            && let Some(path) = path_after(first.name.as_str(), name)
        {
            return Ok(path);
        }
        self.open.clear();
        self.first = Some(First {
            name: name.to_string(alloc)?,
            is_made: false,
            hold: Hold::NotYet,
        });
        Ok("")
    }

    /// The open folder that is nearest on the way to a path, by its number, and what is left of the path.
    fn nearest<'a>(&self, first: RawFd, path: &'a str) -> (RawFd, &'a str) {
        let mut nearest = (first, path);
        for here in self.open.iter() {
            if let Some(left) = path_after(here.path.as_str(), path)
                && left.len() < nearest.1.len()
            {
                nearest = (here.folder.as_raw_fd(), left);
            }
        }
        nearest
    }

    /// Keeps a folder open, and the one that was opened first no longer if these are too many; answers its number.
    fn keep(&mut self, alloc: Global, path: &str, folder: File) -> Result<RawFd, AllocError> {
        let number = folder.as_raw_fd();
        if self.open.len() >= MOST_OPEN {
            self.open.remove(0);
        }
        self.open.push(OpenFolder {
            path: path.to_string(alloc)?,
            folder,
        })?;
        Ok(number)
    }

    /// Goes to the folder of a path, from the nearest one on; answers its number, or none if names are taken whole.
    fn go_to(&mut self, rt: &HostRuntime, path: &str) -> io::Result<Option<RawFd>> {
        let first = match &mut self.first {
            Some(first) => first.number(rt)?,
            None => None,
        };
        let Some(first) = first else {
            return Ok(None);
        };
        let (mut here, left) = self.nearest(first, path);
        let mut way = path
            .strip_suffix(left)
            .unwrap_or(path)
            .to_string(rt.alloc())?;
        for name in left.split('/').filter(|name| !name.is_empty()) {
            way.push_str(name)?;
            let folder = folder_in(rt, here, name)?;
            here = self.keep(rt.alloc(), way.as_str(), folder)?;
            way.push('/')?;
        }
        Ok(Some(here))
    }

    /// The name by which the system finds what has a name: the first folder by that itself, and what is below it in the open folder that it
    /// stands in.
    fn found(&mut self, rt: &HostRuntime, name: &str) -> io::Result<String> {
        let path = self.path_of(rt.alloc(), name)?;
        if path.is_empty() {
            return Ok(name.to_string(rt.alloc())?);
        }
        let (folder, last) = path.rsplit_once('/').unwrap_or(("", path));
        match self.go_to(rt, folder)? {
            Some(number) => Ok(name_within(rt.alloc(), number, last)?),
            None => Ok(name.to_string(rt.alloc())?),
        }
    }

    /// The same; if memory is refused the open folders make room for one more try.
    fn place(&mut self, rt: &HostRuntime, name: &str) -> io::Result<String> {
        match self.found(rt, name) {
            Err(error) if error.kind() == ErrorKind::OutOfMemory => {
                self.open.clear();
                self.found(rt, name)
            }
            found => found,
        }
    }

    /// What is under a name. Links aren't followed.
    pub fn kind(&mut self, rt: &HostRuntime, name: &str) -> io::Result<HostKind> {
        let place = self.place(rt, name)?;
        kind_of(rt, place.as_str())
    }

    /// The names in a folder, in the order in which the system lists them.
    pub fn list(&mut self, rt: &HostRuntime, alloc: Global, name: &str) -> io::Result<Vec<String>> {
        let path = self.path_of(alloc, name)?;
        match self.go_to(rt, path)? {
            Some(number) => names_in(rt, alloc, numbered(alloc, number)?.as_str()),
            None => names_in(rt, alloc, name),
        }
    }

    /// A file that is read, but for one that a link leads to.
    pub fn open(&mut self, rt: &HostRuntime, name: &str) -> io::Result<File> {
        let place = self.place(rt, name)?;
        opened_entry(rt, place.as_str())
    }

    /// Makes a folder.
    pub fn make(&mut self, rt: &HostRuntime, name: &str) -> io::Result<()> {
        let place = self.place(rt, name)?;
        fs::create_dir(rt, place.as_str())?;
        if let Some(first) = &mut self.first
            && first.name.as_str() == name
        {
            first.is_made = true;
        }
        Ok(())
    }

    /// Makes a file.
    pub fn create(&mut self, rt: &HostRuntime, name: &str) -> io::Result<File> {
        let place = self.place(rt, name)?;
        File::create_new(rt, place.as_str())
    }
}
