//! The lines of what stands at paths.

ghost use Rattle.std.specs.Prelude.{◌≡◌, ◌++◌, OnOk, if◌then◌else◌, codes, decimal, map};
ghost use Rattle.lfs_fs.specs.Entry.{leads};
ghost use Rattle.lfs_listing.specs.Listing.{entry_line, in_ten_places, size_word};

use crate::columns::append_column;
use crate::paths::append_path;
use itoa::Buffer;
use lfs_fs::{Row, RowBody};
use std::alloc::AllocError;

/// The letter of a row, with a space.
fn letter_of(row: &Row<'_>) -> &'static [u8]
    ensures { result.now ≡ (if leads row.now.entry then codes "d " else codes "f ") }
{
    if row.is_dir() { b"d " } else { b"f " }
}

/// Adds a count in ten places.
fn append_count(text: &mut Vec<u8>, count: usize) -> Result<(), AllocError>
    ensures { OnOk result (text.new.items ≡ text.old.items ++ in_ten_places (decimal count)) }
{
    append_column(text, Buffer::new().format(count).as_bytes())
}

/// Adds a row's size in ten places.
fn append_size(text: &mut Vec<u8>, row: &Row<'_>) -> Result<(), AllocError>
    ensures { OnOk result (text.new.items ≡ text.old.items ++ in_ten_places (size_word row.now.entry)) }
{
    match row.body {
        RowBody::Directory(..) => append_column(text, b"-"),
        RowBody::Inline(bytes) => append_count(text, bytes.len()),
        RowBody::Chain { size, .. } => append_count(text, size as usize),
    }
}

/// Adds the line of a row at a path.
pub(crate) fn append_entry(
    text: &mut Vec<u8>,
    path: &[&[u8]],
    row: &Row<'_>,
) -> Result<(), AllocError>
    ensures { OnOk result (text.new.items ≡ text.old.items ++ entry_line (map (λ n. n.now) path.now) row.now.entry) }
{
    text.extend_from_slice(letter_of(row))?;
    append_size(text, row)?;
    text.extend_from_slice(b" ")?;
    append_path(text, path)?;
    text.extend_from_slice(b"\n")
}
