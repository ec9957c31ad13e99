//! Files that stand in their entries.

ghost use Rattle.std.specs.Prelude.{◌≡◌, ◌++◌, OnOk, map};
ghost use Rattle.lfs_fs.specs.Listed.{path_after, row_after, rows_listed};
ghost use Rattle.lfs_listing.specs.Inlined.{greater, in_entry, lines_if_longer, longer_text, longest, path_line};

use crate::paths::{append_path, follow_row};
use lfs_fs::{Row, RowBody, Rows};
use std::alloc::{AllocError, Global};

/// The length of a row's file, if that stands in its entry.
fn in_entry(row: &Row<'_>) -> Option<usize>
    ensures { result ≡ in_entry row.now.entry.body }
{
    match row.body {
        RowBody::Inline(bytes) => Some(bytes.len()),
        RowBody::Directory(..) | RowBody::Chain { .. } => None,
    }
}

/// The greater of a length and another one, if there is one.
fn greater(length: usize, other: Option<usize>) -> usize
    ensures { result ≡ greater length other }
{
    match other {
        Some(other) => length.max(other),
        None => length,
    }
}

/// The length of the longest file that stands in its entry, in bytes; 0 if none does.
pub fn longest_inline(rows: Rows<'_>) -> usize
    ensures { result ≡ longest (rows_listed rows.entry) }
{
    let mut longest = 0;
    for row in rows {
        longest = greater(longest, in_entry(&row));
    }
    longest
}

/// Adds the line of a path.
fn append_line(text: &mut Vec<u8>, path: &[&[u8]]) -> Result<(), AllocError>
    ensures { OnOk result (text.new.items ≡ text.old.items ++ path_line (map (λ n. n.now) path.now)) }
{
    append_path(text, path)?;
    text.extend_from_slice(b"\n")
}

/// Adds the line of a row at a path, if its file stands in its entry and is longer than `most` bytes.
fn append_if_longer(
    text: &mut Vec<u8>,
    most: usize,
    path: &[&[u8]],
    row: &Row<'_>,
) -> Result<(), AllocError>
    ensures { OnOk result (text.new.items
        ≡ text.old.items ++ lines_if_longer most (record { path = map (λ n. n.now) path.now; entry = row.now.entry })) }
{
    match in_entry(row) {
        Some(length) if most < length => append_line(text, path),
        _ => Ok(()),
    }
}

/// Adds a line for each file that stands in its entry and is longer than `most` bytes: its path, as `send_listing` shows it. Takes
/// memory.
pub fn append_longer(
    alloc: Global,
    text: &mut Vec<u8>,
    most: usize,
    rows: Rows<'_>,
) -> Result<(), AllocError>
    ensures { OnOk result (text.new.items ≡ text.old.items ++ longer_text most (rows_listed rows.entry)) }
{
    let mut path = Vec::new(alloc);
    for row in rows {
        follow_row(&mut path, &row)?;
        append_if_longer(text, most, &path, &row)?;
    }
    Ok(())
}
