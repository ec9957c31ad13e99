//! Directories by their first pairs.

ghost use Rattle.std.specs.Prelude.{◌≡◌, IfOk};
ghost use Rattle.lfs_fs.specs.Pair.{unordered};
ghost use Rattle.lfs_fs.specs.DirectoryTable.{IsTableOf};

use crate::outline_directory::OutlineDirectory;
use std::alloc::{AllocError, Global};
use std::collections::BTreeMap;

/// A pair as a set: the lesser block first.
pub(crate) fn unordered(first: u32, second: u32) -> (u32, u32)
    ensures { result ≡ unordered (first, second) }
{
    if first <= second {
        (first, second)
    } else {
        (second, first)
    }
}

/// Where each directory stands, under its first pair, the lesser block first.
pub(crate) fn table_of(
    alloc: Global,
    directories: &[OutlineDirectory],
) -> Result<BTreeMap<(u32, u32), usize>, AllocError>
    ensures { IfOk result (λ table. IsTableOf directories.now table.entries) }
{
    let mut table = BTreeMap::new(alloc);
    for (index, directory) in directories.iter().enumerate() {
        table.insert(directory.key(), index)?;
    }
    Ok(table)
}
