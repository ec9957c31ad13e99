//! What reading a folder asks of a host.

ghost use Rattle.std.specs.Prelude.{IfErr, IfOk, map, string_bytes};
ghost use Rattle.lfs_host.specs.HostCall.{Listing, Looking, ReadingEntry};
ghost use Rattle.lfs_host.specs.HostTree.{CannotList, IsKind, Lists, ReadsEntry};
ghost use Rattle.lfs_host.specs.Scene.{KeepsAll, Notes, listing_refused, reading_refused};

use crate::host_kind::HostKind;
use crate::known::Known;
use crate::list_fault::ListFault;
use crate::read_fault::ReadFault;
use std::alloc::Global;

/// A host whose folders are read. A call changes nothing.
pub trait Folders: Known {
    /// What is under a name. Links aren't followed.
    fn kind(&mut self, name: &str) -> Result<HostKind, ReadFault>
        ensures kind { IfOk result (λ kind. IsKind (Self.known self.old).tree name.now kind) }
        ensures noted { Notes (Looking name.now) (reading_refused result) (Self.known self.old) (Self.known self.new) }
        ensures kept { KeepsAll (Self.known self.old) (Self.known self.new) };

    /// The names in a folder, each once, in any order.
    fn list(&mut self, alloc: Global, name: &str) -> Result<Vec<String>, ListFault>
        ensures listed { IfOk result (λ names. Lists (Self.known self.old).tree name.now (map (λ n. string_bytes n) names.items)) }
        ensures refused { IfErr result (λ fault. CannotList (Self.known self.old).tree name.now fault) }
        ensures noted { Notes (Listing name.now) (listing_refused result) (Self.known self.old) (Self.known self.new) }
        ensures kept { KeepsAll (Self.known self.old) (Self.known self.new) };

    /// The bytes of a regular file that no link leads to, `most` of them and one more at most.
    fn read_entry(&mut self, alloc: Global, name: &str, most: u64) -> Result<Vec<u8>, ReadFault>
        ensures read { IfOk result (λ bytes. ReadsEntry (Self.known self.old).tree name.now most bytes.items) }
        ensures noted { Notes (ReadingEntry name.now) (reading_refused result) (Self.known self.old) (Self.known self.new) }
        ensures kept { KeepsAll (Self.known self.old) (Self.known self.new) };
}
