//! A host in memory.

ghost use Rattle.std.specs.Prelude.{◌≡◌, ◌∷◌, ◌++◌, ℕ, List, [], None, Contains, drop, IfOk, MatchResult, OnErr, OnOk, false, true, is_err, is_ok, map, string_bytes, ◌||◌};
ghost use Rattle.std.specs.Option.{option_map};
ghost use Rattle.lfs_host.specs.declared.failing.Failing.TheVariants.{Never};
ghost use Rattle.lfs_host.specs.Files.{BeginsWith, HasWritten, StaysBut};
ghost use Rattle.lfs_host.specs.MemoryFiles.{files_of};

use crate::failing::Failing;
use crate::folders::Folders;
use crate::host::Host;
use crate::host_fault::HostFault;
use crate::host_kind::HostKind;
use crate::known::Known;
use crate::list_fault::ListFault;
use crate::lock::Lock;
use crate::made_entry::{MadeEntry, fill_last};
use crate::make_fault::MakeFault;
use crate::memory_files::{MemoryFiles, move_file, put, put_text, take};
use crate::memory_tree::{below, kind_of, names_in};
use crate::new_folder::NewFolder;
use crate::read_fault::ReadFault;
use lfs_sink::Text;
use std::alloc::{AllocError, Global};
use std::collections::BTreeMap;
use std::fmt::{Display, Write};

/// A host in memory, of which all is known: its files, standard input, standard output, and what is under each name. No file is a
/// link, and no other run locks one. A slash in a file's name stands behind a folder's, which is there as long as a file is below it.
/// What is made in new folders is a list of its own, apart from the files. Its calls that write, rename or begin a file, or make a
/// folder, can be made to fail.
#[derive(Drop)]
pub struct MemoryHost {
    alloc: Global,
    /// The files.
    pub files: MemoryFiles,
    /// What comes on standard input.
    pub typed: &'static [u8],
    /// What went to standard output.
    pub printed: Vec<u8>,
    /// What went to standard error.
    pub reported: String,
    /// What was made in new folders, in order.
    pub made: Vec<MadeEntry>,
    /// The names that were claimed.
    pub claimed: Vec<String>,
    /// How many bytes of what was printed were handed on.
    pub flushed: usize,
    /// Which call fails.
    pub failing: Failing,
    /// Whether a call was refused.
    pub has_refused: bool,
}

impl MemoryHost {
    /// A host without files, of which nothing fails, and on whose standard input this comes.
    pub fn new(alloc: Global, typed: &'static [u8]) -> MemoryHost
        ensures files { (name : List ℕ) → files_of result.files name ≡ None }
        ensures typed { result.typed.now ≡ typed.now }
        ensures printed { result.printed.items ≡ [] }
        ensures made { result.made.items ≡ [] }
        ensures failing { result.failing ≡ Never }
        ensures claimed { result.claimed.items ≡ [] }
        ensures refused { result.has_refused ≡ false }
    {
        MemoryHost {
            alloc,
            files: BTreeMap::new(alloc),
            typed,
            printed: Vec::new(alloc),
            reported: String::new(alloc),
            made: Vec::new(alloc),
            claimed: Vec::new(alloc),
            flushed: 0,
            failing: Failing::Never,
            has_refused: false,
        }
    }

    /// The bytes of a file, where it is there.
    pub fn bytes(&self, name: &str) -> Option<&[u8]>
        ensures { option_map (λ bytes. bytes.now) result ≡ files_of self.now.files name.now }
    {
        let bytes = self.files.get(name)?;
        Some(bytes.as_slice())
    }

    /// Makes or replaces a file. Where memory is refused all stays.
    pub fn put(&mut self, name: &str, bytes: &[u8]) -> Result<(), AllocError>
        ensures written { OnOk result (HasWritten name.now bytes.now (files_of self.old.files) (files_of self.new.files)) }
        ensures kept { OnErr result (files_of self.new.files ≡ files_of self.old.files) }
    {
        put(self.alloc, &mut self.files, name, bytes)
    }

    /// Takes a file away, where it is there.
    pub fn take(&mut self, name: &str)
        ensures taken { files_of self.new.files name.now ≡ None }
        ensures kept { StaysBut (name.now ∷ []) (files_of self.old.files) (files_of self.new.files) }
    {
        take(&mut self.files, name);
    }
}

/// The bytes from a place on.
fn behind(bytes: &[u8], place: u64) -> &[u8]
    ensures { result.now ≡ drop place bytes.now }
{
    if bytes.len() as u64 <= place {
        return &[];
    }
    &bytes[place as usize..]
}

/// The first of these bytes, `most` of them and one more at most.
fn beginning(bytes: &[u8], most: u64) -> &[u8]
    ensures { BeginsWith most bytes.now result.now }
{
    if (bytes.len() as u64) <= most {
        return bytes;
    }
    &bytes[..most as usize + 1]
}

/// Puts a name behind others.
fn put_name(alloc: Global, names: &mut Vec<String>, name: &str) -> Result<(), AllocError>
    ensures { OnOk result (Contains (map string_bytes names.new.items) name.now) }
{
    let name = String::from_str(alloc, name)?;
    names.push(name)?;
    Ok(())
}

impl Known for MemoryHost {
    ghost use Rattle.std.specs.Prelude.{Some, take};
    ghost use Rattle.lfs_host.specs.MadeEntry.{made_as};
    ghost use Rattle.lfs_host.specs.MemoryTree.{tree_of};

    ghost known = { λ host. record {
      files = Some (files_of host.files);
      typed = Some host.typed.now;
      printed = Some host.printed.items;
      flushed = Some (take host.flushed host.printed.items);
      tree = Some (tree_of host.files);
      made = Some (map made_as host.made.items);
      claimed = Some (map string_bytes host.claimed.items);
      has_withheld = Some false;
      has_read_unclaimed = Some false;
      refused = Some (λ _. host.has_refused);
    } };
}

impl MemoryHost {
    /// Counts a call that can be made to fail, and refuses it where it is the one.
    fn must_work(&mut self) -> Result<(), HostFault>
        ensures noted { self.new.has_refused ≡ is_err result || self.old.has_refused }
        ensures claimed { self.new.claimed ≡ self.old.claimed }
        ensures files { self.new.files ≡ self.old.files }
        ensures typed { self.new.typed ≡ self.old.typed }
        ensures printed { self.new.printed ≡ self.old.printed }
        ensures made { self.new.made ≡ self.old.made }
    {
        if self.failing.fails() {
            self.has_refused = true;
            return Err(HostFault);
        }
        Ok(())
    }
}

impl Folders for MemoryHost {
    fn kind(&mut self, name: &str) -> Result<HostKind, ReadFault> {
        Ok(kind_of(&self.files, name))
    }

    fn list(&mut self, alloc: Global, name: &str) -> Result<Vec<String>, ListFault> {
        match kind_of(&self.files, name) {
            HostKind::Folder => {
                names_in(alloc, &self.files, name).map_err(|_| ListFault::Memory)
            }
            _ => {
                self.has_refused = true;
                Err(ListFault::CannotRead)
            }
        }
    }

    fn read_entry(&mut self, alloc: Global, name: &str, most: u64) -> Result<Vec<u8>, ReadFault> {
        self.read(alloc, name, 0, most)
    }
}

impl MemoryHost {
    /// Puts what was made behind the rest, or refuses the call where memory is refused.
    fn keep(&mut self, made: Result<MadeEntry, AllocError>) -> Result<(), HostFault>
        ensures made { MatchResult result (λ _. IfOk made (λ entry. self.new.made.items ≡ self.old.made.items ++ entry ∷ []))
            (λ _. self.new.made.items ≡ self.old.made.items) }
        ensures done { OnOk result (is_ok made ≡ true) }
        ensures noted { self.new.has_refused ≡ is_err result || self.old.has_refused }
        ensures claimed { self.new.claimed ≡ self.old.claimed }
        ensures files { self.new.files ≡ self.old.files }
        ensures typed { self.new.typed ≡ self.old.typed }
        ensures printed { self.new.printed ≡ self.old.printed }
    {
        let Ok(entry) = made else {
            self.has_refused = true;
            return Err(HostFault);
        };
        if self.made.push(entry).is_err() {
            self.has_refused = true;
            return Err(HostFault);
        }
        Ok(())
    }
}

impl NewFolder for MemoryHost {
    fn make_folder(&mut self, name: &str) -> Result<(), MakeFault> {
        self.must_work()?;
        let made = MadeEntry::folder(self.alloc, name);
        self.keep(made)?;
        Ok(())
    }

    fn begin_file(&mut self, name: &str) -> Result<(), MakeFault> {
        self.must_work()?;
        let made = MadeEntry::file(self.alloc, name);
        self.keep(made)?;
        Ok(())
    }

    fn fill(&mut self, bytes: &[u8]) -> Option<usize> {
        if fill_last(&mut self.made, bytes).is_err() {
            self.has_refused = true;
            return None;
        }
        Some(bytes.len())
    }

    fn end_file(&mut self, _name: &str) -> Result<(), HostFault> {
        Ok(())
    }
}

impl Host for MemoryHost {
    fn target(&mut self, alloc: Global, name: &str) -> Result<String, ReadFault> {
        String::from_str(alloc, name).map_err(|_| ReadFault::Memory)
    }

    fn lock(&mut self, name: &str) -> Result<Lock, HostFault> {
        if put_name(self.alloc, &mut self.claimed, name).is_err() {
            self.has_refused = true;
            return Err(HostFault);
        }
        if self.files.contains_key(name) {
            Ok(Lock::Held)
        } else {
            Ok(Lock::NoFile)
        }
    }

    fn must_be_new(&mut self, name: &str) -> Result<(), HostFault> {
        if self.bytes(name).is_some() {
            self.has_refused = true;
            return Err(HostFault);
        }
        Ok(())
    }

    fn is_below(&mut self, name: &str, folder: &str) -> bool {
        below(folder, name).is_some()
    }

    fn stays(&mut self, _name: &str) -> bool {
        true
    }

    fn read(
        &mut self,
        alloc: Global,
        name: &str,
        place: u64,
        most: u64,
    ) -> Result<Vec<u8>, ReadFault> {
        match self.files.get(name) {
            Some(bytes) => Vec::from_slice(alloc, beginning(behind(bytes, place), most)).map_err(
                |_| ReadFault::Memory,
            ),
            None => {
                self.has_refused = true;
                Err(ReadFault::CannotRead)
            }
        }
    }

    fn find(&mut self, alloc: Global, name: &str, most: u64) -> Result<Vec<u8>, ReadFault> {
        match self.files.get(name) {
            Some(bytes) => {
                Vec::from_slice(alloc, beginning(bytes, most)).map_err(|_| ReadFault::Memory)
            }
            None => Ok(Vec::new(alloc)),
        }
    }

    fn read_contents(
        &mut self,
        alloc: Global,
        name: &str,
        most: u64,
    ) -> Result<Vec<u8>, ReadFault> {
        self.read(alloc, name, 0, most)
    }

    fn input(&mut self, alloc: Global, most: u64) -> Result<Vec<u8>, ReadFault> {
        Vec::from_slice(alloc, beginning(self.typed, most)).map_err(|_| ReadFault::Memory)
    }

    fn write<T: Text>(&mut self, name: &str, text: &T, _like: &str) -> Result<(), HostFault> {
        self.must_work()?;
        match put_text(self.alloc, &mut self.files, name, text) {
            Ok(()) => Ok(()),
            Err(_) => {
                self.has_refused = true;
                Err(HostFault)
            }
        }
    }

    fn rename(&mut self, from: &str, to: &str) -> Result<(), HostFault> {
        self.settle(from, to)
    }

    fn settle(&mut self, from: &str, to: &str) -> Result<(), HostFault> {
        self.must_work()?;
        let moved = move_file(self.alloc, &mut self.files, from, to);
        if moved.is_err() {
            self.has_refused = true;
        }
        moved
    }

    fn remove(&mut self, name: &str) {
        take(&mut self.files, name);
    }

    fn print(&mut self, bytes: &[u8]) -> Option<usize> {
        if self.printed.extend_from_slice(bytes).is_err() {
            self.has_refused = true;
            return None;
        }
        Some(bytes.len())
    }

    fn flush(&mut self) -> Result<(), HostFault> {
        self.flushed = self.printed.len();
        Ok(())
    }

    fn report<D: Display + Drop>(&mut self, text: D) {
        let _ = write!(self.reported, "{text}");
    }

    fn report_refused(&mut self, _image: &str) {}
}
