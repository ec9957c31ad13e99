//! How many blocks an image has once a command is carried out.

ghost use Rattle.std.specs.Prelude.{◌≡◌};
ghost use Rattle.lfs_command.specs.AskedFor.{named_command};
ghost use Rattle.lfs_command.specs.Growth.{count_after};

use crate::command::{Command, Named};

/// The number of blocks of an image of `count` blocks once the command is carried out.
pub fn count_after(command: &Named<'_>, count: u32) -> u32
    ensures { result ≡ count_after (named_command command.now) count }
{
    match command {
        Command::Grow { count } => *count,
        _ => count,
    }
}
