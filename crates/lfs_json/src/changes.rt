//! The lines of rows that differ.

ghost use Rattle.std.specs.Prelude.{◌≡◌, ◌++◌, OnOk, map};
ghost use Rattle.lfs_json.specs.Line.{line_of};
ghost use Rattle.lfs_json.specs.Rows.{json_of_change, json_of_contents};

use crate::entries::add_entry;
use crate::line::{begin_line, end_line};
use crate::members::add_text;
use crate::rows::add_row;
use lfs_fs::Row;
use std::alloc::{AllocError, Global};

/// Adds the line of a row at a path, as `append_json_row` does, with `change` in front.
pub fn append_json_change(
    alloc: Global,
    text: &mut Vec<u8>,
    change: &str,
    path: &[&[u8]],
    row: &Row<'_>,
) -> Result<(), AllocError>
    ensures { OnOk result (text.new.items
        ≡ text.old.items ++ line_of (json_of_change change.now (map (λ n. n.now) path.now) row.now.entry)) }
{
    let mut line = begin_line(alloc, text)?;
    add_text(&mut line, "change", change)?;
    add_row(alloc, &mut line, path, row)?;
    end_line(text, line)?;
    Ok(())
}

/// Adds the same line without the attributes.
pub fn append_json_contents(
    alloc: Global,
    text: &mut Vec<u8>,
    change: &str,
    path: &[&[u8]],
    row: &Row<'_>,
) -> Result<(), AllocError>
    ensures { OnOk result (text.new.items
        ≡ text.old.items ++ line_of (json_of_contents change.now (map (λ n. n.now) path.now) row.now.entry)) }
{
    let mut line = begin_line(alloc, text)?;
    add_text(&mut line, "change", change)?;
    add_entry(alloc, &mut line, path, row)?;
    end_line(text, line)?;
    Ok(())
}
