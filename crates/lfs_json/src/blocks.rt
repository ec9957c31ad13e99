//! The lines of blocks.

ghost use Rattle.std.specs.Prelude.{◌≡◌, ◌++◌, None, OnOk, Some, decimal, map};
ghost use Rattle.lfs_json.specs.Line.{line_of};
ghost use Rattle.lfs_json.specs.Written.{Adds, members_tokens};
ghost use Rattle.lfs_json.specs.Blocks.{json_of_sum, run_rest, user_front, user_members};

use crate::entries::kind_word;
use crate::line::{begin_line, end_line};
use crate::members::{add_number, add_text};
use crate::paths::add_path;
use itoa::Buffer;
use json::Writer;
use lfs_fs::Row;
use std::alloc::{AllocError, Global};

/// The front of the object of free blocks.
pub const FREE_FRONT: &[u8] = b"{\"kind\":\"free\"";

/// Adds what takes blocks.
fn add_user(
    alloc: Global,
    line: &mut Writer,
    path: &[&[u8]],
    row: &Row<'_>,
) -> Result<(), AllocError>
    ensures { OnOk result (Adds line.old line.new
        (members_tokens (user_members (Some (record { path = map (λ n. n.now) path.now; entry = row.now.entry }))))) }
{
    add_text(line, "kind", kind_word(row))?;
    add_path(alloc, line, path)
}

/// Adds the line of a row at a path that takes so many blocks: an object with `kind`, `path` and `blocks`.
pub fn append_json_sum(
    alloc: Global,
    text: &mut Vec<u8>,
    path: &[&[u8]],
    row: &Row<'_>,
    blocks: u64,
) -> Result<(), AllocError>
    ensures { OnOk result (text.new.items ≡ text.old.items
        ++ line_of (json_of_sum (Some (record { path = map (λ n. n.now) path.now; entry = row.now.entry })) blocks)) }
{
    let mut line = begin_line(alloc, text)?;
    add_user(alloc, &mut line, path, row)?;
    add_number(&mut line, "blocks", blocks)?;
    end_line(text, line)?;
    Ok(())
}

/// Adds the line of so many blocks that nothing takes.
pub fn append_json_free_sum(
    alloc: Global,
    text: &mut Vec<u8>,
    blocks: u64,
) -> Result<(), AllocError>
    ensures { OnOk result (text.new.items ≡ text.old.items ++ line_of (json_of_sum None blocks)) }
{
    let mut line = begin_line(alloc, text)?;
    add_text(&mut line, "kind", "free")?;
    add_number(&mut line, "blocks", blocks)?;
    end_line(text, line)?;
    Ok(())
}

/// Adds the front of the object of what takes blocks: a row at a path.
pub fn append_json_user(
    alloc: Global,
    text: &mut Vec<u8>,
    path: &[&[u8]],
    row: &Row<'_>,
) -> Result<(), AllocError>
    ensures { OnOk result (text.new.items ≡ text.old.items
        ++ user_front (Some (record { path = map (λ n. n.now) path.now; entry = row.now.entry }))) }
{
    let mut line = begin_line(alloc, text)?;
    add_user(alloc, &mut line, path, row)?;
    *text = line.into_inner();
    Ok(())
}

/// Adds a number.
fn append_number(text: &mut Vec<u8>, number: usize) -> Result<(), AllocError>
    ensures { OnOk result (text.new.items ≡ text.old.items ++ decimal number) }
{
    text.extend_from_slice(Buffer::new().format(number).as_bytes())
}

/// Adds the rest of the line of what takes the blocks from the first to the last one.
pub fn append_json_run(text: &mut Vec<u8>, first: usize, last: usize) -> Result<(), AllocError>
    ensures { OnOk result (text.new.items ≡ text.old.items ++ run_rest first last) }
{
    text.extend_from_slice(b",\"first\":")?;
    append_number(text, first)?;
    text.extend_from_slice(b",\"last\":")?;
    append_number(text, last)?;
    text.extend_from_slice(b"}\n")
}
