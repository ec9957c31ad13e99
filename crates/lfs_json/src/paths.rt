//! Paths as members.

ghost use Rattle.std.specs.Prelude.{◌≡◌, IfOk, OnOk, map};
ghost use Rattle.lfs_fs.specs.Path.{path_text};
ghost use Rattle.lfs_json.specs.Written.{Adds, member_tokens};
ghost use Rattle.lfs_json.specs.Rows.{path_member};

use crate::members::add_bytes;
use json::Writer;
use std::alloc::{AllocError, Global};

/// The text of a path.
fn text_of(alloc: Global, path: &[&[u8]]) -> Result<Vec<u8>, AllocError>
    ensures { IfOk result (λ text. text.items ≡ path_text (map (λ n. n.now) path.now)) }
{
    let mut text = Vec::new(alloc);
    if path.is_empty() {
        text.push(b'/')?;
        return Ok(text);
    }
    for name in path {
        text.push(b'/')?;
        text.extend_from_slice(name)?;
    }
    Ok(text)
}

/// Adds a path.
pub(crate) fn add_path(alloc: Global, line: &mut Writer, path: &[&[u8]]) -> Result<(), AllocError>
    ensures { OnOk result (Adds line.old line.new (member_tokens (path_member (map (λ n. n.now) path.now)))) }
{
    let text = text_of(alloc, path)?;
    add_bytes(alloc, line, "path", "path_hex", &text)
}
