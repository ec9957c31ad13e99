//! Where on its path a step is refused.

use lfs_command::names_of;
use lfs_draft::reach;
use lfs_fs::{Limits, Outline, ROOT, entry_in};
use std::alloc::Global;

/// Where on its path a step is refused, for what is told of it.
#[derive(Clone, Copy)]
pub struct Place {
    /// Whether it is on the path that something is moved to.
    pub is_of_target: bool,
    /// How many names of that path lead to something, from the root on.
    pub names: usize,
    /// Whether the path that something is moved to, or the only one, is that of a directory.
    pub is_directory: bool,
    /// The limits of the image.
    pub limits: Limits,
}

impl Place {
    ghost use Rattle.std.specs.Prelude.{◌≡◌, IfSome};
    ghost use Rattle.lfs_request.specs.Place.{IsPlaceOn};

    /// Where a path is refused in an image of this outline, or `target`, to which something is moved from there, where the whole of the
    /// path leads to something. `None` where one of the texts is no path, or memory is wanting.
    pub fn of(alloc: Global, outline: &Outline, path: &[u8], target: Option<&[u8]>) -> Option<Place>
        ensures on { IfSome result (IsPlaceOn outline.now path.now target.entry) }
        ensures limits { IfSome result (λ place. place.limits ≡ outline.now.limits) }
    {
        let path = names_of(alloc, path).ok()?;
        let reached = reach(outline, &path);
        let Some(target) = target else {
            return Some(Place {
                is_of_target: false,
                names: reached,
                is_directory: is_directory(outline, &path),
                limits: outline.limits,
            });
        };
        let target = names_of(alloc, target).ok()?;
        if reached < path.len() {
            return Some(Place {
                is_of_target: false,
                names: reached,
                is_directory: is_directory(outline, &target),
                limits: outline.limits,
            });
        }
        Some(Place {
            is_of_target: true,
            names: reach(outline, &target),
            is_directory: is_directory(outline, &target),
            limits: outline.limits,
        })
    }
}

/// Whether names lead to a directory.
fn is_directory(outline: &Outline, names: &[&[u8]]) -> bool {
    let mut pair = ROOT;
    for name in names {
        let Some(entry) = entry_in(&outline.directories, pair, name) else {
            return false;
        };
        let Some(target) = entry.target() else {
            return false;
        };
        pair = target;
    }
    !names.is_empty()
}
