//! Whether rows that come one after another are at a path or below it.

ghost use Rattle.std.specs.Prelude.{◌≡◌, ◌++◌, ◌∷◌, [], length};
ghost use Rattle.lfs_fs.specs.Path.{Path};
ghost use Rattle.lfs_listing.specs.Below.{names};
ghost use Rattle.lfs_extract.specs.RowsBelow.{shared};

use lfs_fs::Row;

/// How many names the path of a row has, and with how many of another path's names it begins.
#[derive(Clone, Copy)]
pub(crate) struct SharedPrefix {
    length: usize,
    shared: usize,
}

/// With how many of a path's names another one begins that has so many names and this one, where it began with `old` ones when others stood
/// behind so many names.
fn shared_after(at: &[&[u8]], old: usize, kept: usize, name: &[u8]) -> usize
    ensures { (prefix : Path) (more : Path) → length prefix ≡ kept → shared (names at.now) (prefix ++ more) ≡ old
        → result ≡ shared (names at.now) (prefix ++ name.now ∷ []) }
{
    if old < kept {
        return old;
    }
    let Some(next) = at.get(kept) else {
        return kept;
    };
    if *next != name {
        return kept;
    }
    kept + 1
}

impl SharedPrefix {
    ghost use Rattle.std.specs.Prelude.{◌≡◌, ◌-◌, [], is_some, length};
    ghost use Rattle.lfs_command.specs.PathMap.{below};
    ghost use Rattle.lfs_fs.specs.Listed.{path_after};
    ghost use Rattle.lfs_fs.specs.Path.{Path};
    ghost use Rattle.lfs_listing.specs.Below.{names};
    ghost use Rattle.lfs_extract.specs.RowsBelow.{IsSharedPrefix};

    /// Of the path that has no names, behind which the first row comes.
    pub(crate) fn new() -> SharedPrefix
        ensures { (at : Path) → IsSharedPrefix at [] result }
    {
        SharedPrefix {
            length: 0,
            shared: 0,
        }
    }

    /// Of the row that comes next, beside the same path.
    pub(crate) fn behind(self, at: &[&[u8]], next: &Row<'_>) -> SharedPrefix
        ensures { (path : Path) → IsSharedPrefix (names at.now) path self
            → IsSharedPrefix (names at.now) (path_after path next.now.depth next.now.entry.name) result }
    {
        if next.depth == 0 {
            return SharedPrefix::new();
        }
        let kept = self.length.min(next.depth - 1);
        SharedPrefix {
            length: kept + 1,
            shared: shared_after(at, self.shared, kept, next.name),
        }
    }

    /// Whether the row is at the path or below it.
    pub(crate) fn is_below(self, at: &[&[u8]]) -> bool
        ensures { (path : Path) → IsSharedPrefix (names at.now) path self → result ≡ is_some (below (names at.now) path) }
    {
        self.shared == at.len()
    }

    /// How many more names the row's path has.
    pub(crate) fn more(self, at: &[&[u8]]) -> usize
        ensures { (path : Path) → IsSharedPrefix (names at.now) path self → result ≡ length path - length (names at.now) }
    {
        self.length.saturating_sub(at.len())
    }
}
