//! Changes of blocks, copied.

ghost use Rattle.std.specs.Prelude.{◌≡◌, IfOk};

use lfs_block::Record;
use std::alloc::{AllocError, Global};

/// The same change.
fn copied(alloc: Global, record: &Record) -> Result<Record, AllocError>
    ensures { IfOk result (λ copy. copy ≡ record.now) }
{
    Ok(Record {
        number: record.number,
        old: record.old.to_vec(alloc)?,
        new: record.new.to_vec(alloc)?,
    })
}

/// The same changes.
pub(crate) fn all_copied(alloc: Global, records: &[Record]) -> Result<Vec<Record>, AllocError>
    ensures { IfOk result (λ copies. copies.items ≡ records.now) }
{
    let mut copies = Vec::with_capacity(alloc, records.len())?;
    for record in records {
        copies.push(copied(alloc, record)?)?;
    }
    Ok(copies)
}
