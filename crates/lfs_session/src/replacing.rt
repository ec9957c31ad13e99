//! A list that is cut off behind a new element.

ghost use Rattle.std.specs.Prelude.{◌≡◌, ◌<◌, ◌≤◌, ◌∷◌, ◌++◌, [], length, take, IsOk, OnOk, OnErr, vec_capacity, vec_len};

use lfs_block::Patch;
use std::alloc::AllocError;

/// Puts a patch at a place of a list, and drops what stood there and behind it. Want of memory leaves the list as it was,
/// and there is none where the list has room for one more.
pub(crate) fn replace_from(
    patches: &mut Vec<Patch>,
    at: usize,
    patch: Patch,
) -> Result<(), AllocError>
    requires { at ≤ vec_len patches.old }
    ensures done { OnOk result (patches.new.items ≡ take at patches.old.items ++ patch ∷ []) }
    ensures unchanged { OnErr result (patches.new.items ≡ patches.old.items) }
    ensures succeeds { vec_len patches.old < vec_capacity patches.old → IsOk result }
{
    if at < patches.len() {
        patches[at] = patch;
        patches.truncate(at + 1);
    } else {
        patches.push(patch)?;
    }
    Ok(())
}
