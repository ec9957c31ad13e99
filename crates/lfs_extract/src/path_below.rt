//! A host's names below a folder.

ghost use Rattle.std.specs.Prelude.{◌≡◌, IfOk, length, string_bytes};
ghost use Rattle.lfs_extract.specs.PathBelow.{text_below, name_in};

use std::alloc::{AllocError, Global};

/// The text of the path of what a host has under a name, below a folder whose name has this many bytes.
pub(crate) fn text_below(alloc: Global, len: usize, name: &str) -> Result<Vec<u8>, AllocError>
    ensures { IfOk result (λ text. text.items ≡ text_below len name.now) }
{
    match name.as_bytes().get(len..) {
        None | Some([]) => Vec::from_slice(alloc, b"/"),
        Some(below) => Vec::from_slice(alloc, below),
    }
}

/// The host's name of what has a name in a folder.
pub(crate) fn name_in(alloc: Global, folder: &str, name: &str) -> Result<String, AllocError>
    ensures { IfOk result (λ joined. string_bytes joined ≡ name_in folder.now name.now) }
{
    format!(in alloc; "{folder}/{name}")
}
