//! What a command writes even where it stays the same.

ghost use Rattle.std.specs.Prelude.{◌≡◌};
ghost use Rattle.lfs_pair.specs.DifferenceSeen.{forced_seen};
ghost use Rattle.lfs_command.specs.AskedFor.{named_command};
ghost use Rattle.lfs_command.specs.PairChanged.{forced_by};

use crate::command::{Command, Named};
use crate::paths::last_of;
use lfs_pair::Forced;

/// What a command writes even where it stays the same: the struct of the file that is put, the value that is set.
pub fn forced_by<'a>(command: &Named<'a>) -> Forced<'a>
    ensures { forced_seen result ≡ forced_by (named_command command.now) }
{
    match command {
        Command::Put { path, .. } => Forced::Struct(last_of(path)),
        Command::SetAttr { path, kind, .. } => Forced::Value(last_of(path), *kind),
        _ => Forced::Nothing,
    }
}
