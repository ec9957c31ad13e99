//! Copied rows as they are packed.

ghost use Rattle.std.specs.Prelude.{◌≡◌, IfOk, map};
ghost use Rattle.lfs_pack.specs.RowText.{pack_text, source_text};

use crate::pack_row::PackRow;
use crate::source_row::SourceRow;
use std::alloc::{AllocError, Global};

/// Copied rows as they are packed, in their order. A file stands in its entry if it has at most `most` bytes. Takes memory.
pub fn pack_rows(
    alloc: Global,
    copied: &[SourceRow],
    most: u32,
) -> Result<Vec<PackRow<'_>>, AllocError>
    ensures { IfOk result (λ rows. map pack_text rows.items ≡ map (source_text most) copied.now) }
{
    let mut rows = Vec::new(alloc);
    'each: for row in copied {
        rows.push(row.pack_row(most))?;
    }
    Ok(rows)
}
