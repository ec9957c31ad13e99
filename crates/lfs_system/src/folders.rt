//! Folders of the system.

use lfs_host::HostKind;
use std::alloc::Global;
use std::fs;
use std::io::{self, ErrorKind};

/// What is under a name. Links aren't followed.
pub fn kind_of(rt: &HostRuntime, name: &str) -> io::Result<HostKind> {
    match fs::symlink_metadata(rt, name) {
        Ok(found) if found.is_file() => Ok(HostKind::File),
        Ok(found) if found.is_dir() => Ok(HostKind::Folder),
        Ok(_) => Ok(HostKind::Other),
        Err(error) if error.kind() == ErrorKind::NotFound => Ok(HostKind::Missing),
        Err(error) => Err(error),
    }
}

/// The names in a folder, in the order in which the system lists them. One that isn't UTF-8 is an invalid file name.
pub fn names_in(rt: &HostRuntime, alloc: Global, folder: &str) -> io::Result<Vec<String>> {
    let mut names = Vec::new(alloc);
    for entry in fs::read_dir(rt, folder)? {
        names.push(entry?.file_name().to_string(alloc)?)?;
    }
    Ok(names)
}

/// The name of the folder that a name stands in.
pub fn parent(name: &str) -> &str {
    match name.rsplit_once('/') {
        Some(("", _)) => "/",
        Some((folder, _)) => folder,
        None => ".",
    }
}

/// Whether the file of a name is, or would be, below a folder.
pub fn is_below(rt: &HostRuntime, name: &str, folder: &str) -> io::Result<bool> {
    let above = fs::canonicalize(rt, folder)?.into_string();
    let own = fs::canonicalize(rt, parent(name))?.into_string();
    Ok(match own.strip_prefix(above.as_str()) {
        Some(rest) => rest.is_empty() || rest.starts_with('/') || above.as_str() == "/",
        None => false,
    })
}

/// What is said of something that is neither a file nor a folder.
pub fn is_other() -> io::Error {
    io::Error::new(
        ErrorKind::InvalidInput,
        "neither a regular file nor a folder",
    )
}
