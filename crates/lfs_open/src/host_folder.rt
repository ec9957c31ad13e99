//! What is read of a host's folder, and what is packed of it.

ghost use Rattle.std.specs.Prelude.{◌≡◌, IfErr, IfOk, map};
ghost use Rattle.lfs_extract.specs.FolderRows.{IsFolder};
ghost use Rattle.lfs_fs.specs.Limits.{most_file};
ghost use Rattle.lfs_host.specs.Scene.{KeepsAll};
ghost use Rattle.lfs_pack.specs.RowText.{pack_text};
ghost use Rattle.lfs_open.specs.HostFolder.{ReadsNoFolder, fault_of_folder, text_of_folder_row};

use lfs_command::Refusal;
use lfs_extract::{FolderFault, FolderRow, folder_rows};
use lfs_host::Host;
use lfs_pack::PackRow;
use lfs_request::Fault;
use std::alloc::{AllocError, Global};

/// What is below a folder, the folder itself first.
pub fn folder_of<H: Host>(alloc: Global, host: &mut H, dir: &str) -> Result<Vec<FolderRow>, Fault>
    ensures read { IfOk result (λ folder. IsFolder most_file (H.known host.old).tree dir.now folder.items) }
    ensures refused { IfErr result (ReadsNoFolder (H.known host.old).tree dir.now (H.known host.new)) }
    ensures kept { KeepsAll (H.known host.old) (H.known host.new) }
{
    match folder_rows(alloc, host, dir) {
        Ok(folder) => Ok(folder),
        Err(fault) => Err(fault_of_folder(fault)),
    }
}

/// What a fault of reading a folder is told as.
fn fault_of_folder(fault: FolderFault) -> Fault
    ensures { result ≡ fault_of_folder fault }
{
    match fault {
        FolderFault::Memory => Fault::Refused(Refusal::Memory),
        FolderFault::HostEntry => Fault::HostEntry,
        FolderFault::HostName => Fault::HostName,
        FolderFault::CannotRead => Fault::CannotRead,
    }
}

/// A folder's row, as it is packed: without attributes. A file stands in its entry if it has at most `most` bytes.
fn pack_row(row: &FolderRow, most: u32) -> PackRow<'_>
    ensures { pack_text result ≡ text_of_folder_row most row.now }
{
    PackRow {
        path: row.path.as_slice(),
        bytes: row.bytes.as_deref(),
        most,
        attributes: &[],
    }
}

/// A folder's rows, as they are packed. A file stands in its entry if it has at most `most` bytes.
pub fn rows_to_pack(
    alloc: Global,
    folder: &[FolderRow],
    most: u32,
) -> Result<Vec<PackRow<'_>>, AllocError>
    ensures { IfOk result (λ rows. map pack_text rows.items ≡ map (text_of_folder_row most) folder.now) }
{
    let mut rows = Vec::new(alloc);
    'each: for row in folder {
        rows.push(pack_row(row, most))?;
    }
    Ok(rows)
}
