//! What stands at paths, as members.

ghost use Rattle.std.specs.Prelude.{◌≡◌, OnOk, map};
ghost use Rattle.lfs_json.specs.Written.{Adds, members_tokens};
ghost use Rattle.lfs_json.specs.Rows.{entry_members, kind_word, size_members};

use crate::members::{add_number, add_text};
use crate::paths::add_path;
use json::Writer;
use lfs_fs::{Row, RowBody};
use std::alloc::{AllocError, Global};

/// What a row is.
pub(crate) fn kind_word(row: &Row<'_>) -> &'static str
    ensures { result.now ≡ kind_word row.now.entry }
{
    if row.is_dir() { "directory" } else { "file" }
}

/// Adds a file's size.
fn add_size(line: &mut Writer, row: &Row<'_>) -> Result<(), AllocError>
    ensures { OnOk result (Adds line.old line.new (members_tokens (size_members row.now.entry))) }
{
    match row.body {
        RowBody::Directory(..) => Ok(()),
        RowBody::Inline(bytes) => add_number(line, "size", bytes.len() as u64),
        RowBody::Chain { size, .. } => add_number(line, "size", u64::from(size)),
    }
}

/// Adds what stands at a path, without its attributes.
pub(crate) fn add_entry(
    alloc: Global,
    line: &mut Writer,
    path: &[&[u8]],
    row: &Row<'_>,
) -> Result<(), AllocError>
    ensures { OnOk result (Adds line.old line.new (members_tokens (entry_members (map (λ n. n.now) path.now) row.now.entry))) }
{
    add_text(line, "kind", kind_word(row))?;
    add_size(line, row)?;
    add_path(alloc, line, path)
}
