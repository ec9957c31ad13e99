//! What is made on a host in memory.

ghost use Rattle.std.specs.Prelude.{◌≡◌, [], IfOk, MatchResult, map};
ghost use Rattle.lfs_host.specs.MadeEntry.{made_as};
ghost use Rattle.lfs_host.specs.NewFolder.{FileMade, FolderMade, filled, last_filled};

use std::alloc::{AllocError, Global};

/// A folder or a file that was made on a host in memory.
#[derive(Drop)]
pub enum MadeEntry {
    /// A folder of this name.
    Folder(String),
    /// A file of this name, with these bytes.
    File(String, Vec<u8>),
}

impl MadeEntry {
    /// A folder of a name.
    pub(crate) fn folder(alloc: Global, name: &str) -> Result<MadeEntry, AllocError>
        ensures { IfOk result (λ made. made_as made ≡ FolderMade name.now) }
    {
        Ok(MadeEntry::Folder(String::from_str(alloc, name)?))
    }

    /// A file of a name, without bytes.
    pub(crate) fn file(alloc: Global, name: &str) -> Result<MadeEntry, AllocError>
        ensures { IfOk result (λ made. made_as made ≡ FileMade name.now []) }
    {
        let name = String::from_str(alloc, name)?;
        Ok(MadeEntry::File(name, Vec::new(alloc)))
    }

    /// Puts bytes after those of a file; a folder stays.
    fn fill(&mut self, bytes: &[u8]) -> Result<(), AllocError>
        ensures { MatchResult result (λ _. made_as self.new ≡ filled bytes.now (made_as self.old)) (λ _. made_as self.new ≡ made_as self.old) }
    {
        match self {
            MadeEntry::Folder(_) => Ok(()),
            MadeEntry::File(_, there) => there.extend_from_slice(bytes),
        }
    }
}

/// Puts bytes after those of the last of what was made, if it is a file.
pub(crate) fn fill_last(made: &mut [MadeEntry], bytes: &[u8]) -> Result<(), AllocError>
    ensures { MatchResult result (λ _. map made_as made.new ≡ last_filled bytes.now (map made_as made.old)) (λ _. map made_as made.new ≡ map made_as made.old) }
{
    match made.last_mut() {
        Some(last) => last.fill(bytes),
        None => Ok(()),
    }
}
