//! Folders of a host in memory.

ghost use Rattle.std.specs.Prelude.{◌≡◌, Some, IfErr, IfOk};
ghost use Rattle.lfs_host.specs.MemoryFiles.{files_of};
ghost use Rattle.lfs_host.specs.MemoryTree.{tree_of};
ghost use Rattle.lfs_extract.specs.FolderRows.{IsFolder};
ghost use Rattle.lfs_serve_tests.specs.MemoryRows.{RefusesInMemory};

use lfs_extract::{FolderFault, FolderRow, folder_rows};
use lfs_host::{MemoryHost, memory_folders_have_no_gap};
use std::alloc::Global;

/// What is below a folder of a host in memory, all of it and nothing else; its files stay. A law of folders that are known: what
/// can't be read is blamed on nothing but a refusal of the host, or on more files than an image can hold. Takes memory.
pub fn rows_in_memory(
    alloc: Global,
    host: &mut MemoryHost,
    dir: &str,
) -> Result<Vec<FolderRow>, FolderFault>
    ensures rows { IfOk result (λ rows. IsFolder 2147483647 (Some (tree_of host.old.files)) dir.now rows.items) }
    ensures refused { IfErr result (λ fault. RefusesInMemory (tree_of host.old.files) dir.now host.new fault) }
    ensures kept { files_of host.new.files ≡ files_of host.old.files }
{
    memory_folders_have_no_gap(&host.files);
    folder_rows(alloc, host, dir)
}
