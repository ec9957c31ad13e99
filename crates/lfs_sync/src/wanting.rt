//! The rows of a folder, with the names of their paths.

ghost use Rattle.std.specs.Prelude.{◌≡◌, List, IfOk};
ghost use Rattle.lfs_fs.specs.Path.{IsPathText, Path};
ghost use Rattle.lfs_sync.specs.Shown.{Shown};
ghost use Rattle.lfs_listing.specs.Below.{names};
ghost use Rattle.lfs_sync.specs.Sides.{wanted_all};
ghost use Rattle.lfs_sync.specs.SyncRows.{AreRowsOfFolder, SayFolder};

use crate::sync_row::SyncRow;
use crate::texts::names_in;
use crate::wanted_row::WantedRow;
use lfs_fs::texts_spell_one_path;
use std::alloc::{AllocError, Global};

/// The names that a text spells.
fn names_of<'a>(alloc: Global, text: &'a [u8]) -> Result<Vec<&'a [u8]>, AllocError>
    requires { (path : Path) × IsPathText text.now path }
    ensures { IfOk result (λ ns. IsPathText text.now (names ns.items)) }
{
    match names_in(alloc, text)? {
        Some(names) => Ok(names),
        None => unreachable!(),
    }
}

/// The rows of a folder, with the names of their paths.
pub(crate) fn wanted_rows<'a>(
    alloc: Global,
    rows: &[SyncRow<'a>],
) -> Result<Vec<WantedRow<'a>>, AllocError>
    requires { SayFolder rows.now }
    ensures { IfOk result (λ all. (wanted : List Shown) → AreRowsOfFolder rows.now wanted → wanted_all rows.now all.items ≡ wanted) }
{
    texts_spell_one_path();
    let mut all = Vec::new(alloc);
    'each: for (place, row) in rows.iter().enumerate() {
        let path = names_of(alloc, row.path)?;
        all.push(WantedRow { path, place })?;
    }
    Ok(all)
}
