//! What making a folder asks of a host.

ghost use Rattle.std.specs.Prelude.{◌≡◌, ◌<◌, ◌≤◌, [], ◌∷◌, length, take, is_err, is_none, IfSome, MatchOption, MatchResult};
ghost use Rattle.lfs_host.specs.HostCall.{BeginningFile, EndingFile, FillingFile, MakingFolder};
ghost use Rattle.lfs_host.specs.NewFolder.{FileMade, Fills, FolderMade, Makes};
ghost use Rattle.lfs_host.specs.Scene.{KeepsFiles, Notes};

use crate::host_fault::HostFault;
use crate::known::Known;
use crate::make_fault::MakeFault;

/// A host on which folders and files are made, one file at a time. What is made so isn't among the host's files. A file counts as made
/// once it is begun.
pub trait NewFolder: Known {
    /// Makes a folder of this name. `Name` if the host can't have the name, and might have another.
    fn make_folder(&mut self, name: &str) -> Result<(), MakeFault>
        ensures made { MatchResult result (λ _. Makes (Self.known self.old).made (Self.known self.new).made (FolderMade name.now ∷ []))
            (λ _. (Self.known self.new).made ≡ (Self.known self.old).made) }
        ensures noted { Notes (MakingFolder name.now) (is_err result) (Self.known self.old) (Self.known self.new) }
        ensures kept { KeepsFiles (Self.known self.old) (Self.known self.new) };

    /// Begins a file of this name, of which nothing is written yet. `Name` if the host can't have the name, and might have another.
    fn begin_file(&mut self, name: &str) -> Result<(), MakeFault>
        ensures made { MatchResult result (λ _. Makes (Self.known self.old).made (Self.known self.new).made (FileMade name.now [] ∷ []))
            (λ _. (Self.known self.new).made ≡ (Self.known self.old).made) }
        ensures noted { Notes (BeginningFile name.now) (is_err result) (Self.known self.old) (Self.known self.new) }
        ensures kept { KeepsFiles (Self.known self.old) (Self.known self.new) };

    /// Writes the first of these bytes to the file that was begun last, at least one, and answers how many, or fails and writes none.
    fn fill(&mut self, bytes: &[u8]) -> Option<usize>
        requires some { 0 < length bytes.now }
        ensures count { IfSome result (λ n. (0 < n) × (n ≤ length bytes.now)) }
        ensures filled { MatchOption result ((Self.known self.new).made ≡ (Self.known self.old).made)
            (λ n. Fills (Self.known self.old).made (Self.known self.new).made (take n bytes.now)) }
        ensures noted { Notes FillingFile (is_none result) (Self.known self.old) (Self.known self.new) }
        ensures kept { KeepsFiles (Self.known self.old) (Self.known self.new) };

    /// Ends the file that was begun last, under this name: the host has all that was written to it, or refuses that.
    fn end_file(&mut self, name: &str) -> Result<(), HostFault>
        ensures made { (Self.known self.new).made ≡ (Self.known self.old).made }
        ensures noted { Notes (EndingFile name.now) (is_err result) (Self.known self.old) (Self.known self.new) }
        ensures kept { KeepsFiles (Self.known self.old) (Self.known self.new) };
}
