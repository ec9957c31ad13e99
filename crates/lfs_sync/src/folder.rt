//! The rows of a host's folder, borrowed.

ghost use Rattle.std.specs.Prelude.{◌≡◌, List, IfOk, map};
ghost use Rattle.lfs_extract.specs.FolderRows.{AreFolderRows, AreSpelled, PathRow};
ghost use Rattle.lfs_sync.specs.Shown.{wanted_of};
ghost use Rattle.lfs_sync.specs.SyncRows.{AreRowsOfFolder, folder_text, sync_text};

use crate::sync_row::SyncRow;
use lfs_extract::FolderRow;
use std::alloc::{AllocError, Global};

/// A row of a host's folder.
fn sync_row(row: &FolderRow) -> SyncRow<'_>
    ensures { sync_text result ≡ folder_text row.now }
{
    SyncRow {
        path: row.path.as_slice(),
        bytes: row.bytes.as_deref(),
    }
}

/// The rows of a host's folder, in their order, which borrow its texts and contents. Want of memory is the only refusal.
pub fn sync_rows(alloc: Global, folder: &[FolderRow]) -> Result<Vec<SyncRow<'_>>, AllocError>
    ensures { IfOk result (λ rows. (shown : List PathRow) → AreSpelled folder.now shown → AreFolderRows shown
        → AreRowsOfFolder rows.items (map wanted_of shown)) }
{
    let mut rows = Vec::new(alloc);
    'each: for row in folder {
        rows.push(sync_row(row))?;
    }
    Ok(rows)
}
