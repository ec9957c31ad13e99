//! Entries of a part that wait in a walk.

use crate::place::Place;

/// Entries of a part that wait in a walk, of which there is at least one: from one up to another, which stands behind them. The depth is
/// the number of names in their paths.
#[derive(Clone, Copy, Drop)]
pub(crate) struct WaitingEntries {
    /// The number of names in their paths.
    pub(crate) depth: u16,
    /// The directory in the order of the thread.
    pub(crate) directory: u16,
    /// The part of the directory.
    pub(crate) part: u16,
    /// The next of them.
    pub(crate) next: u16,
    /// The one behind the last of them.
    pub(crate) end: u16,
}

impl WaitingEntries {
    ghost use Rattle.std.specs.Prelude.{◌≡◌, ◌∷◌, IfSome};
    ghost use Rattle.lfs_fs.specs.Waiting.{IsWaiting, next_place, waiting_in, waiting_still};

    /// The place of the next one.
    pub(crate) fn place(self) -> Place
        ensures { result ≡ next_place self }
    {
        Place {
            depth: self.depth,
            directory: self.directory,
            part: self.part,
            entry: self.next,
        }
    }

    /// Those behind the next one, if there are any.
    pub(crate) fn behind(self) -> Option<WaitingEntries>
        requires { IsWaiting self }
        ensures places { waiting_in self ≡ next_place self ∷ waiting_still result }
        ensures more { IfSome result IsWaiting }
    {
        let next = self.next + 1;
        if next < self.end {
            Some(WaitingEntries { next, ..self })
        } else {
            None
        }
    }
}
