//! The lines of rows.

ghost use Rattle.std.specs.Prelude.{◌≡◌, ◌++◌, OnOk, map};
ghost use Rattle.lfs_fs.specs.Listed.{path_after, row_after};
ghost use Rattle.lfs_listing.specs.Below.{lines_at, names};
ghost use Rattle.lfs_listing.specs.Forms.{row_text};

use crate::attributes::append_attributes;
use crate::below::is_below;
use crate::entries::append_entry;
use crate::paths::follow_row;
use lfs_fs::Row;
use lfs_json::{Form, append_json_row};
use std::alloc::{AllocError, Global};

/// Adds the lines of a row at a path, in a form.
pub(crate) fn append_lines(
    alloc: Global,
    form: Form,
    text: &mut Vec<u8>,
    path: &[&[u8]],
    row: &Row<'_>,
) -> Result<(), AllocError>
    ensures { OnOk result (text.new.items
        ≡ text.old.items ++ row_text form (record { path = map (λ n. n.now) path.now; entry = row.now.entry })) }
{
    match form {
        Form::Text => {
            append_entry(text, path, row)?;
            append_attributes(text, row.attributes)
        }
        Form::Json => append_json_row(alloc, text, path, row),
    }
}

/// Adds the lines of the row behind one at a path, in a form, if it is at another path or below, and turns the path into its own.
pub(crate) fn append_row<'a>(
    alloc: Global,
    form: Form,
    text: &mut Vec<u8>,
    path: &mut Vec<&'a [u8]>,
    at: &[&[u8]],
    row: &Row<'a>,
) -> Result<(), AllocError>
    ensures lines { OnOk result (text.new.items ≡ text.old.items ++ lines_at (row_text form) (names at.now) (row_after (map (λ n. n.now) path.old.items) row.now)) }
    ensures path { OnOk result (map (λ n. n.now) path.new.items
        ≡ path_after (map (λ n. n.now) path.old.items) row.now.depth row.now.entry.name) }
{
    follow_row(path, row)?;
    if !is_below(path, at) {
        return Ok(());
    }
    append_lines(alloc, form, text, path, row)
}
