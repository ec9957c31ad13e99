//! Scripts whose steps are one change.

ghost use Rattle.std.specs.Prelude.{◌≡◌};
ghost use Rattle.lfs_texts.specs.OneChange.{first_other, is_command_step, no_command};

use crate::flaw::Flaw;
use crate::line_fault::LineFault;
use crate::reason::Reason;
use crate::script_fault::ScriptFault;
use crate::script_line::ScriptLine;
use lfs_history::{Move, Source};

/// Whether a step is a command.
fn is_command(step: &Move<'_, Source<'_>>) -> bool
    ensures { result ≡ is_command_step step.now }
{
    matches!(step, Move::Do { .. })
}

/// That a line of this number says no command.
fn no_command(number: usize) -> ScriptFault
    ensures { result ≡ no_command number }
{
    ScriptFault {
        number,
        fault: LineFault::BadLine,
        flaw: Some(Flaw {
            reason: Reason::NoCommand,
            column: 1,
        }),
    }
}

/// The first of a script's lines whose step is no command, and so no part of one change; `None` where all of them are commands.
pub fn first_other(lines: &[ScriptLine<'_>]) -> Option<ScriptFault>
    ensures { result ≡ first_other lines.now }
{
    'each: for line in lines {
        if !is_command(&line.step) {
            return Some(no_command(line.number));
        }
    }
    None
}
