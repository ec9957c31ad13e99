//! Steps with their bytes in hand.

ghost use Rattle.std.specs.Prelude.{◌≡◌};
ghost use Rattle.lfs_history.specs.Meaning.{step_by, step_of};
ghost use Rattle.lfs_history.specs.Filling.{bytes_given};

use crate::moves::Move;
use crate::source::Source;
use lfs_command::Command;

/// The bytes of a source: those that are said, or those that were read of it.
fn bytes_of<'a>(source: &'a Source<'a>, read: &'a [u8]) -> &'a [u8]
    ensures { result.now ≡ bytes_given read.now source.now }
{
    match source {
        Source::Said(bytes) => bytes,
        _ => read,
    }
}

/// A step with its bytes in hand: those that were said with it, or those that were read of its source.
pub fn filled<'a>(step: &'a Move<'a, Source<'a>>, read: &'a [u8]) -> Move<'a>
    ensures { step_of result ≡ step_by (bytes_given read.now) step.now }
{
    let (command, keep) = match step {
        Move::Do { command, keep } => (command, *keep),
        Move::Together { commands, keep } => {
            return Move::Together {
                commands: *commands,
                keep: *keep,
            };
        }
        Move::Undo { steps } => return Move::Undo { steps: *steps },
        Move::Redo { steps } => return Move::Redo { steps: *steps },
        Move::Forget => return Move::Forget,
    };
    let command = match command {
        Command::Mkdir { path } => Command::Mkdir { path: *path },
        Command::Put { path, bytes, most } => Command::Put {
            path: *path,
            bytes: bytes_of(bytes, read),
            most: *most,
        },
        Command::Rm { path } => Command::Rm { path: *path },
        Command::Mv { from, to } => Command::Mv {
            from: *from,
            to: *to,
        },
        Command::SetAttr { path, kind, value } => Command::SetAttr {
            path: *path,
            kind: *kind,
            value: bytes_of(value, read),
        },
        Command::RmAttr { path, kind } => Command::RmAttr {
            path: *path,
            kind: *kind,
        },
        Command::Grow { count } => Command::Grow { count: *count },
    };
    Move::Do { command, keep }
}
