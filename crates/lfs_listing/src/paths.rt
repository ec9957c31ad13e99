//! Paths of rows.

ghost use Rattle.std.specs.Prelude.{◌≡◌, ◌++◌, ◌∷◌, OnOk, flat_map, map};
ghost use Rattle.lfs_fs.specs.Listed.{path_after};
ghost use Rattle.lfs_fs.specs.Path.{path_text};
ghost use Rattle.lfs_listing.specs.Listing.{shown_byte};

use crate::escaping::append_all_shown;
use lfs_fs::{Row, follow};
use std::alloc::AllocError;

/// Turns the path of a row into that of the next one. Want of memory is the only refusal.
pub fn follow_row<'a>(path: &mut Vec<&'a [u8]>, next: &Row<'a>) -> Result<(), AllocError>
    ensures { OnOk result (map (λ n. n.now) path.new.items
        ≡ path_after (map (λ n. n.now) path.old.items) next.now.depth next.now.entry.name) }
{
    follow(path, next.depth, next.name)?;
    Ok(())
}

/// Adds a slash and a name.
fn append_name(text: &mut Vec<u8>, name: &[u8]) -> Result<(), AllocError>
    ensures { OnOk result (text.new.items ≡ text.old.items ++ flat_map shown_byte (47 ∷ name.now)) }
{
    append_all_shown(text, b"/")?;
    append_all_shown(text, name)
}

/// Adds a path.
pub(crate) fn append_path(text: &mut Vec<u8>, path: &[&[u8]]) -> Result<(), AllocError>
    ensures { OnOk result (text.new.items ≡ text.old.items ++ flat_map shown_byte (path_text (map (λ n. n.now) path.now))) }
{
    if path.is_empty() {
        return append_all_shown(text, b"/");
    }
    for name in path {
        append_name(text, name)?;
    }
    Ok(())
}
