//! A host's folder as rows.

ghost use Rattle.std.specs.Prelude.{◌≡◌, IfErr, IfOk};
ghost use Rattle.lfs_fs.specs.Limits.{most_file};
ghost use Rattle.lfs_host.specs.Scene.{KeepsAll};
ghost use Rattle.lfs_extract.specs.FolderRows.{BlamesHost, IsFolder, RefusesFolderRows};

use crate::folder_fault::FolderFault;
use crate::folder_row::FolderRow;
use crate::walking::FolderWalk;
use lfs_host::Folders;
use std::alloc::Global;

/// What is below a host's folder, in the order of paths: the folder itself first, as `/`, and each folder before what is in
/// it. Links aren't followed, and each file is read once. `HostEntry` where something below is neither a regular file nor a
/// folder, `HostName` where a name below can't be one in an image, `CannotRead` where something can't be read: the host
/// refuses, a name stands twice in one folder, nothing is under a name that a folder has, or more is there than an image can hold.
pub fn folder_rows<H: Folders>(
    alloc: Global,
    host: &mut H,
    dir: &str,
) -> Result<Vec<FolderRow>, FolderFault>
    ensures rows { IfOk result (λ rows. IsFolder most_file (H.known host.old).tree dir.now rows.items) }
    ensures refused { IfErr result (λ fault. RefusesFolderRows (H.known host.old).tree dir.now fault) }
    ensures blamed { IfErr result (λ fault. BlamesHost (H.known host.old).tree dir.now (H.known host.new) fault) }
    ensures kept { KeepsAll (H.known host.old) (H.known host.new) }
{
    let mut walk = FolderWalk::start(alloc, host, dir)?;
    while let Some(name) = walk.waiting.pop() {
        walk.visit(alloc, host, dir, name.as_str())?;
    }
    let FolderWalk { rows, .. } = walk;
    Ok(rows)
}
