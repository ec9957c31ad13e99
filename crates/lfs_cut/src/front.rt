//! The directories in front of others.

ghost use Rattle.std.specs.Prelude.{◌≡◌, take};

use lfs_fs::OutlineDirectory;

/// So many directories in front; all where there are fewer.
pub(crate) fn in_front(directories: &[OutlineDirectory], front: usize) -> &[OutlineDirectory]
    ensures { result.now ≡ take front directories.now }
{
    &directories[..front.min(directories.len())]
}
