//! How far a path leads in an outline.

ghost use Rattle.std.specs.Prelude.{map};
ghost use Rattle.lfs_draft.specs.Reaches.{Reaches};

use lfs_fs::{Outline, ROOT, entry_in};

/// How many of these names lead to something, from the root on: all of them, or those before the first one behind which nothing
/// is.
pub fn reach(outline: &Outline, names: &[&[u8]]) -> usize
    ensures { Reaches outline.now (map (λ n. n.now) names.now) result }
{
    let mut pair = ROOT;
    'each: for (at, name) in names.iter().enumerate() {
        let Some(entry) = entry_in(&outline.directories, pair, name) else {
            return at;
        };
        let Some(below) = entry.target() else {
            return at + 1;
        };
        pair = below;
    }
    names.len()
}
