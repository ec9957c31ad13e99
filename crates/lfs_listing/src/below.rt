//! Paths below others.

ghost use Rattle.std.specs.Prelude.{◌≡◌, is_some};
ghost use Rattle.lfs_command.specs.PathMap.{below};
ghost use Rattle.lfs_listing.specs.Below.{names};

/// Whether a path is another or lies below it.
pub fn is_below(path: &[&[u8]], at: &[&[u8]]) -> bool
    ensures { result ≡ is_some (below (names at.now) (names path.now)) }
{
    'each: for (index, name) in at.iter().enumerate() {
        let Some(other) = path.get(index) else {
            return false;
        };
        if name != other {
            return false;
        }
    }
    true
}
