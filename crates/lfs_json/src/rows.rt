//! The lines of rows.

ghost use Rattle.std.specs.Prelude.{◌≡◌, ◌++◌, OnOk, map};
ghost use Rattle.lfs_json.specs.Line.{line_of};
ghost use Rattle.lfs_json.specs.Written.{Adds, members_tokens};
ghost use Rattle.lfs_json.specs.Rows.{json_of_digested, json_of_row, row_members};

use crate::attributes::add_attributes;
use crate::entries::add_entry;
use crate::line::{begin_line, end_line};
use crate::members::add_digits;
use json::Writer;
use lfs_fs::Row;
use std::alloc::{AllocError, Global};

/// Adds what stands at a path, with its attributes.
pub(crate) fn add_row(
    alloc: Global,
    line: &mut Writer,
    path: &[&[u8]],
    row: &Row<'_>,
) -> Result<(), AllocError>
    ensures { OnOk result (Adds line.old line.new (members_tokens (row_members (map (λ n. n.now) path.now) row.now.entry))) }
{
    add_entry(alloc, line, path, row)?;
    add_attributes(alloc, line, row.attributes)?;
    Ok(())
}

/// Adds the line of a row at a path: an object with `kind`, `directory` or `file`, the `size` of a file in bytes, `path` or, where that
/// isn't UTF-8, `path_hex`, and `attributes` where there are any, each with `kind` and `value`.
pub fn append_json_row(
    alloc: Global,
    text: &mut Vec<u8>,
    path: &[&[u8]],
    row: &Row<'_>,
) -> Result<(), AllocError>
    ensures { OnOk result (text.new.items ≡ text.old.items ++ line_of (json_of_row (map (λ n. n.now) path.now) row.now.entry)) }
{
    let mut line = begin_line(alloc, text)?;
    add_row(alloc, &mut line, path, row)?;
    end_line(text, line)?;
    Ok(())
}

/// Adds the same line with one member more: `sha256`, the digest of a file's contents.
pub fn append_json_digested_row(
    alloc: Global,
    text: &mut Vec<u8>,
    path: &[&[u8]],
    row: &Row<'_>,
    digest: &[u8],
) -> Result<(), AllocError>
    ensures { OnOk result (text.new.items
        ≡ text.old.items ++ line_of (json_of_digested (map (λ n. n.now) path.now) row.now.entry digest.now)) }
{
    let mut line = begin_line(alloc, text)?;
    add_row(alloc, &mut line, path, row)?;
    add_digits(alloc, &mut line, "sha256", digest)?;
    end_line(text, line)?;
    Ok(())
}
