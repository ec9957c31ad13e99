//! The directories in front that a command may set.

ghost use Rattle.std.specs.Prelude.{◌≡◌, false, All, drop, map};
ghost use Rattle.lfs_fs.specs.Directory.{thread};
ghost use Rattle.lfs_fs.specs.Sound.{IsSound};
ghost use Rattle.lfs_command.specs.AskedFor.{named_command};
ghost use Rattle.lfs_command.specs.Clean.{IsClean};
ghost use Rattle.lfs_command.specs.Supplies.{Supplies};
ghost use Rattle.lfs_law.specs.EditedOutline.{edited_outline};
ghost use Rattle.lfs_draft.specs.Editable.{BeginOnce, IsEditable};
ghost use Rattle.lfs_draft.specs.Front.{IsFrontOf};

use crate::parent::parent_of;
use crate::thread_edit::directory_of;
use lfs_command::{Command, Named};
use lfs_fs::Outline;

/// How many directories there are up to the one behind that of a path's last name; two where there is no such name.
fn front_of(outline: &Outline, path: &[&[u8]]) -> usize
    requires sound { IsSound outline.now }
    requires once { BeginOnce outline.now.directories }
    ensures { IsFrontOf outline.now (map (λ n. n.now) path.now) result }
{
    let Ok(parent) = parent_of(outline, path) else {
        return 2;
    };
    match directory_of(&outline.directories, parent.pair) {
        Some(at) => at + 2,
        None => 2,
    }
}

/// How many directories in front a command may set parts of: it sets none of those behind. Where files and directories are made in the
/// order of their paths they are few: as many as are open, and one more.
pub fn count_in_front(outline: &Outline, command: &Named<'_>) -> usize
    requires { IsEditable outline.now (named_command command.now) }
    ensures { (s : Supplies) → IsClean outline.now
        → All (λ p. p.dirty ≡ false) (thread (drop result (edited_outline outline.now (named_command command.now) s).directories)) }
{
    match command {
        Command::Rm { .. } | Command::Mv { .. } | Command::Grow { .. } => outline.directories.len(),
        _ => match command.path() {
            Some(path) => front_of(outline, path),
            None => outline.directories.len(),
        },
    }
}
