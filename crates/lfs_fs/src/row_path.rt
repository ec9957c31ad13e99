//! Paths of rows that come one after another.

ghost use Rattle.std.specs.Prelude.{◌≡◌, OnOk};
ghost use Rattle.lfs_fs.specs.Listed.{path_after};

use std::alloc::AllocError;

/// Turns the path of a row into that of the next one, which has so many names, this one last; where it has none, it is the root's. A
/// name is kept in any form: as bytes, or as a text. Want of memory is the only refusal.
pub fn follow<N: Drop>(path: &mut Vec<N>, depth: usize, name: N) -> Result<(), AllocError>
    ensures { OnOk result (path.new.items ≡ path_after path.old.items depth name) }
{
    if depth == 0 {
        path.clear();
        return Ok(());
    }
    path.truncate(depth - 1);
    Ok(path.push(name)?)
}
