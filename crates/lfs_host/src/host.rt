//! What the program needs of the system that it runs on.

ghost use Rattle.std.specs.Prelude.{◌≡◌, ◌<◌, ◌≤◌, length, take, false, is_err, is_none, IfOk, IfSome, MatchOption, MatchResult, OnOk, string_bytes};
ghost use Rattle.std.specs.Io.KnownBytes.{Appends, Keeps};
ghost use Rattle.lfs_host.specs.Files.{FindsFile, IsLocked, IsMissing, IsTarget, KeepsOthers, ReadsFile, ReadsFrom, ReadsInput, Renames, WritesFiles};
ghost use Rattle.lfs_host.specs.HostCall.{Aiming, Finding, Flushing, Locking, Printing, Reading, ReadingContents, ReadingInput, Renaming, Settling, Sparing, Writing};
ghost use Rattle.lfs_host.specs.Scene.{Claims, HasClaimed, IsCovered, KeepsAll, KeepsInput, KeepsOutput, KeepsSeen, KeepsTally, KeepsText, Notes, reading_refused};

use crate::folders::Folders;
use crate::host_fault::HostFault;
use crate::lock::Lock;
use crate::new_folder::NewFolder;
use crate::read_fault::ReadFault;
use lfs_sink::Text;
use std::alloc::Global;
use std::fmt::Display;

/// Files, standard input, standard output and standard error, with folders that are read and made. A call changes nothing of
/// what is known but what it says.
pub trait Host: Folders + NewFolder {
    /// The name of the file that a name leads to: that of a link's target, or the name itself.
    fn target(&mut self, alloc: Global, name: &str) -> Result<String, ReadFault>
        ensures target { IfOk result (λ target. IsTarget (Self.known self.old).files name.now (string_bytes target)) }
        ensures noted { Notes (Aiming name.now) (reading_refused result) (Self.known self.old) (Self.known self.new) }
        ensures tally { KeepsTally (Self.known self.old) (Self.known self.new) }
        ensures kept { KeepsAll (Self.known self.old) (Self.known self.new) };

    /// Locks a file for this run until it ends, so that no other run holds its lock. A name without a file is claimed too.
    fn lock(&mut self, name: &str) -> Result<Lock, HostFault>
        ensures locked { IfOk result (λ lock. IsLocked (Self.known self.old).files name.now lock) }
        ensures claimed { IfOk result (Claims (Self.known self.new) name.now) }
        ensures noted { Notes (Locking name.now) (is_err result) (Self.known self.old) (Self.known self.new) }
        ensures tally { KeepsTally (Self.known self.old) (Self.known self.new) }
        ensures kept { KeepsSeen (Self.known self.old) (Self.known self.new) };

    /// Refuses a name under which something is, a file or a link that leads nowhere.
    fn must_be_new(&mut self, name: &str) -> Result<(), HostFault>
        ensures missing { OnOk result (IsMissing (Self.known self.old).files name.now) }
        ensures same { OnOk result (Self.known self.new ≡ Self.known self.old) }
        ensures noted { Notes (Sparing name.now) (is_err result) (Self.known self.old) (Self.known self.new) }
        ensures tally { KeepsTally (Self.known self.old) (Self.known self.new) }
        ensures kept { KeepsAll (Self.known self.old) (Self.known self.new) };

    /// Whether the file of a name is, or would be, below a folder. Where that can't be known it counts as elsewhere.
    fn is_below(&mut self, name: &str, folder: &str) -> bool
        ensures kept { Self.known self.new ≡ Self.known self.old };

    /// Whether the file of an image that was read last has its name still, after waiting for a run that gives new files their names. If that
    /// can't be known, it counts as if it has. So an image and a journal that were read before are of one state.
    fn stays(&mut self, name: &str) -> bool
        ensures kept { Self.known self.new ≡ Self.known self.old };

    /// The bytes of a file from a place on, `most` of them and one more at most; none if the place is after its end. A file that is to be
    /// changed is read once its name is claimed.
    fn read(
        &mut self,
        alloc: Global,
        name: &str,
        place: u64,
        most: u64,
    ) -> Result<Vec<u8>, ReadFault>
        ensures read { IfOk result (λ bytes. ReadsFrom (Self.known self.old).files name.now place most bytes.items) }
        ensures noted { Notes (Reading name.now) (reading_refused result) (Self.known self.old) (Self.known self.new) }
        ensures tally { IsCovered (Self.known self.old) name.now → KeepsTally (Self.known self.old) (Self.known self.new) }
        ensures kept { KeepsAll (Self.known self.old) (Self.known self.new) };

    /// The bytes of a file, `most` of them and one more at most; none where there is no such file.
    fn find(&mut self, alloc: Global, name: &str, most: u64) -> Result<Vec<u8>, ReadFault>
        ensures found { IfOk result (λ bytes. FindsFile (Self.known self.old).files name.now most bytes.items) }
        ensures noted { Notes (Finding name.now) (reading_refused result) (Self.known self.old) (Self.known self.new) }
        ensures tally { IsCovered (Self.known self.old) name.now → KeepsTally (Self.known self.old) (Self.known self.new) }
        ensures kept { KeepsAll (Self.known self.old) (Self.known self.new) };

    /// The bytes of a file whose contents are put, `most` of them and one more at most. It need not be a regular one.
    fn read_contents(&mut self, alloc: Global, name: &str, most: u64) -> Result<Vec<u8>, ReadFault>
        ensures read { IfOk result (λ bytes. ReadsFile (Self.known self.old).files name.now most bytes.items) }
        ensures noted { Notes (ReadingContents name.now) (reading_refused result) (Self.known self.old) (Self.known self.new) }
        ensures tally { IsCovered (Self.known self.old) name.now → KeepsTally (Self.known self.old) (Self.known self.new) }
        ensures kept { KeepsAll (Self.known self.old) (Self.known self.new) };

    /// The bytes of standard input, `most` of them and one more at most. What is left there afterwards isn't said.
    fn input(&mut self, alloc: Global, most: u64) -> Result<Vec<u8>, ReadFault>
        ensures read { IfOk result (λ bytes. ReadsInput (Self.known self.old).typed most bytes.items) }
        ensures noted { Notes ReadingInput (reading_refused result) (Self.known self.old) (Self.known self.new) }
        ensures tally { KeepsTally (Self.known self.old) (Self.known self.new) }
        ensures kept { KeepsOutput (Self.known self.old) (Self.known self.new) };

    /// Makes a file of a text, with the rights of the file `like` where there is one; what an earlier run left under
    /// the name is replaced. Where it is refused nothing is left under the name, or what was there.
    fn write<T: Text>(&mut self, name: &str, text: &T, like: &str) -> Result<(), HostFault>
        ensures files { MatchResult result (λ _. WritesFiles (Self.known self.old).files (Self.known self.new).files name.now (T.bytes text.now))
            (λ _. KeepsOthers (Self.known self.old).files (Self.known self.new).files name.now) }
        ensures noted { Notes (Writing name.now) (is_err result) (Self.known self.old) (Self.known self.new) }
        ensures tally { KeepsTally (Self.known self.old) (Self.known self.new) }
        ensures kept { KeepsText (Self.known self.old) (Self.known self.new) };

    /// Gives a file another name, in place of the file that this run holds the lock of, or where there is none of nothing.
    /// Where it is refused both names are as they were.
    fn rename(&mut self, from: &str, to: &str) -> Result<(), HostFault>
        requires claimed { HasClaimed (Self.known self.old) to.now }
        ensures files { MatchResult result (λ _. Renames (Self.known self.old).files (Self.known self.new).files from.now to.now)
            (λ _. (Self.known self.new).files ≡ (Self.known self.old).files) }
        ensures noted { Notes (Renaming from.now to.now) (is_err result) (Self.known self.old) (Self.known self.new) }
        ensures tally { KeepsTally (Self.known self.old) (Self.known self.new) }
        ensures kept { KeepsText (Self.known self.old) (Self.known self.new) };

    /// Gives a file another name, in place of a file that has it, or where there is none of nothing. Where it is refused
    /// both names are as they were.
    fn settle(&mut self, from: &str, to: &str) -> Result<(), HostFault>
        ensures files { MatchResult result (λ _. Renames (Self.known self.old).files (Self.known self.new).files from.now to.now)
            (λ _. (Self.known self.new).files ≡ (Self.known self.old).files) }
        ensures noted { Notes (Settling from.now to.now) (is_err result) (Self.known self.old) (Self.known self.new) }
        ensures tally { KeepsTally (Self.known self.old) (Self.known self.new) }
        ensures kept { KeepsText (Self.known self.old) (Self.known self.new) };

    /// Takes a file away, where that is not refused.
    fn remove(&mut self, name: &str)
        ensures files { KeepsOthers (Self.known self.old).files (Self.known self.new).files name.now }
        ensures noted { (Self.known self.new).refused ≡ (Self.known self.old).refused }
        ensures tally { KeepsTally (Self.known self.old) (Self.known self.new) }
        ensures kept { KeepsText (Self.known self.old) (Self.known self.new) };

    /// Writes the first of these bytes to standard output, at least one, and answers how many, or fails and writes
    /// none.
    fn print(&mut self, bytes: &[u8]) -> Option<usize>
        requires some { 0 < length bytes.now }
        ensures count { IfSome result (λ n. (0 < n) × (n ≤ length bytes.now)) }
        ensures printed { MatchOption result (Keeps (Self.known self.old).printed (Self.known self.new).printed)
            (λ n. Appends (Self.known self.old).printed (Self.known self.new).printed (take n bytes.now)) }
        ensures noted { Notes Printing (is_none result) (Self.known self.old) (Self.known self.new) }
        ensures tally { KeepsTally (Self.known self.old) (Self.known self.new) }
        ensures kept { KeepsInput (Self.known self.old) (Self.known self.new) };

    /// Hands on what was written to standard output.
    fn flush(&mut self) -> Result<(), HostFault>
        ensures flushed { OnOk result ((Self.known self.new).flushed ≡ (Self.known self.new).printed) }
        ensures noted { Notes Flushing (is_err result) (Self.known self.old) (Self.known self.new) }
        ensures tally { KeepsTally (Self.known self.old) (Self.known self.new) }
        ensures kept { KeepsAll (Self.known self.old) (Self.known self.new) };

    /// Writes text to standard error. Nothing is told where that fails.
    fn report<D: Display + Drop>(&mut self, text: D)
        ensures kept { Self.known self.new ≡ Self.known self.old };

    /// Writes a line to standard error: what was refused last, the image of this name, its journal, what is below a folder,
    /// a file whose contents are put, standard input or standard output, and what the system said. Nothing where it said nothing.
    fn report_refused(&mut self, image: &str)
        ensures kept { Self.known self.new ≡ Self.known self.old };
}
