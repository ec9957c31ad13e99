//! The state of a walk over what is below a host's folder, and its steps.

ghost use Rattle.std.specs.Prelude.{◌≡◌, ◌+◌, ◌<◌, ◌++◌, ◌∷◌, IfErr, IfOk, IfSome, OnOk, length, map, option_map, reverse, string_bytes};
ghost use Rattle.lfs_host.specs.Scene.{KeepsAll};
ghost use Rattle.lfs_extract.specs.FolderRows.{BlamesHost, RefusesFolderRows};
ghost use Rattle.lfs_extract.specs.FolderWalk.{EntersFolder, IsFolderWalk, IsHostBlamed, RefusesFolder, ShowsMore};
ghost use Rattle.lfs_extract.specs.PathBelow.{name_in, text_below};

use crate::folder_fault::FolderFault;
use crate::folder_row::FolderRow;
use crate::host_names::in_order;
use crate::path_below::{name_in, text_below};
use lfs_fs::MOST_FILE;
use lfs_host::{Folders, HostKind};
use std::alloc::{AllocError, Global};

/// The most bytes that a file in an image has.
pub(crate) const MOST_BYTES: u64 = MOST_FILE as u64;

/// More files and folders than the largest image can hold, where each takes 9 bytes at least in each block of a pair.
pub(crate) const MOST_ROWS: usize = 4_194_304;

/// A walk: the rows so far, and the host's names of what waits, the next one last.
#[derive(Drop)]
pub(crate) struct FolderWalk {
    /// The rows so far.
    pub(crate) rows: Vec<FolderRow>,
    /// The names that wait, the next one last.
    pub(crate) waiting: Vec<String>,
}

impl FolderWalk {
    /// A walk that has entered a folder, of which nothing else was read.
    pub(crate) fn start<H: Folders>(
        alloc: Global,
        host: &mut H,
        dir: &str,
    ) -> Result<FolderWalk, FolderFault>
        ensures walking { IfOk result (λ walk. IsFolderWalk MOST_BYTES (H.known host.old).tree dir.now walk.rows.items
            (map (λ s. string_bytes s) (reverse walk.waiting.items))) }
        ensures refused { IfErr result (λ fault. RefusesFolderRows (H.known host.old).tree dir.now fault) }
        ensures blamed { IfErr result (λ fault. BlamesHost (H.known host.old).tree dir.now (H.known host.new) fault) }
        ensures kept { KeepsAll (H.known host.old) (H.known host.new) }
    {
        let mut walk = FolderWalk {
            rows: Vec::new(alloc),
            waiting: Vec::new(alloc),
        };
        walk.enter(alloc, host, dir.len(), dir)?;
        Ok(walk)
    }

    /// Reads what waits next: a file is shown with its bytes, and a folder is entered.
    pub(crate) fn visit<H: Folders>(
        &mut self,
        alloc: Global,
        host: &mut H,
        dir: &str,
        name: &str,
    ) -> Result<(), FolderFault>
        requires { IsFolderWalk MOST_BYTES (H.known host.old).tree dir.now self.old.rows.items
            (name.now ∷ map (λ s. string_bytes s) (reverse self.old.waiting.items)) }
        ensures walking { OnOk result (IsFolderWalk MOST_BYTES (H.known host.old).tree dir.now self.new.rows.items
            (map (λ s. string_bytes s) (reverse self.new.waiting.items))) }
        ensures more { OnOk result ((length self.old.rows.items < MOST_ROWS) × (length self.new.rows.items ≡ length self.old.rows.items + 1)) }
        ensures refused { IfErr result (λ fault. RefusesFolderRows (H.known host.old).tree dir.now fault) }
        ensures blamed { IfErr result (λ fault. BlamesHost (H.known host.old).tree dir.now (H.known host.new) fault) }
        ensures kept { KeepsAll (H.known host.old) (H.known host.new) }
    {
        if self.rows.len() >= MOST_ROWS {
            return Err(FolderFault::CannotRead);
        }
        match host.kind(name)? {
            HostKind::Folder => self.enter(alloc, host, dir.len(), name),
            HostKind::File => {
                let bytes = host.read_entry(alloc, name, MOST_BYTES)?;
                Ok(self.show(alloc, dir.len(), name, Some(bytes))?)
            }
            HostKind::Other => Err(FolderFault::HostEntry),
            HostKind::Missing => Err(FolderFault::CannotRead),
        }
    }

    /// Shows a folder, and lets the names in it wait.
    fn enter<H: Folders>(
        &mut self,
        alloc: Global,
        host: &mut H,
        len: usize,
        folder: &str,
    ) -> Result<(), FolderFault>
        ensures entered { OnOk result (EntersFolder (H.known host.old).tree len folder.now self.old.rows.items self.new.rows.items
            (map (λ s. string_bytes s) (reverse self.old.waiting.items)) (map (λ s. string_bytes s) (reverse self.new.waiting.items))) }
        ensures refused { IfErr result (λ fault. IfSome (H.known host.old).tree (RefusesFolder folder.now fault)) }
        ensures blamed { IfErr result (λ fault. IsHostBlamed (H.known host.old).tree folder.now (H.known host.new) fault) }
        ensures kept { KeepsAll (H.known host.old) (H.known host.new) }
    {
        let listed = host.list(alloc, folder)?;
        let names = in_order(listed)?;
        self.show(alloc, len, folder, None)?;
        self.wait(alloc, folder, names)?;
        Ok(())
    }

    /// Puts a row behind the others.
    fn show(
        &mut self,
        alloc: Global,
        len: usize,
        name: &str,
        bytes: Option<Vec<u8>>,
    ) -> Result<(), AllocError>
        ensures shown { OnOk result (ShowsMore (text_below len name.now) (option_map (λ b. b.items) bytes) self.old.rows.items self.new.rows.items) }
        ensures waiting { self.new.waiting ≡ self.old.waiting }
    {
        let path = text_below(alloc, len, name)?;
        self.rows.push(FolderRow { path, bytes })?;
        Ok(())
    }

    /// Lets the names in a folder wait, the first one last.
    fn wait(
        &mut self,
        alloc: Global,
        folder: &str,
        mut names: Vec<String>,
    ) -> Result<(), AllocError>
        ensures waits { OnOk result (map (λ s. string_bytes s) (reverse self.new.waiting.items)
            ≡ map (λ s. name_in folder.now (string_bytes s)) names.items ++ map (λ s. string_bytes s) (reverse self.old.waiting.items)) }
        ensures rows { self.new.rows ≡ self.old.rows }
    {
        while let Some(name) = names.pop() {
            self.waiting.push(name_in(alloc, folder, name.as_str())?)?;
        }
        Ok(())
    }
}
