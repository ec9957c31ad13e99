//! The moves that the lines of a script say.

ghost use Rattle.std.specs.Prelude.{◌≡◌, ◌++◌, IfOk, OnOk, length, map};
ghost use Rattle.std.specs.Option.{option_map};
ghost use Rattle.lfs_history.specs.Meaning.{step_of};
ghost use Rattle.lfs_command.specs.AskedFor.{asked_for};
ghost use Rattle.lfs_open.specs.LineMoves.{command_in, commands_in, listed, moves_said};

use crate::line_contents::LineContents;
use lfs_command::Asked;
use lfs_history::{Move, filled};
use lfs_texts::ScriptLine;
use std::alloc::{AllocError, Global};

/// The moves that lines say, in their order, with what they put. Takes memory.
pub fn moves_of<'a>(
    alloc: Global,
    lines: &'a [ScriptLine<'a>],
    read: &'a LineContents,
) -> Result<Vec<Move<'a>>, AllocError>
    requires { length read.now ≡ length lines.now }
    ensures { IfOk result (λ moves. map step_of moves.items ≡ moves_said lines.now read.now) }
{
    let mut moves = Vec::new(alloc);
    'each: for (at, line) in lines.iter().enumerate() {
        moves.push(filled(&line.step, read.of_line(at)))?;
    }
    Ok(moves)
}

/// The command that a move carries out, if it is one.
fn command_in<'a>(step: &Move<'a>) -> Option<Asked<'a>>
    ensures { option_map asked_for result ≡ command_in (step_of step.now) }
{
    match step {
        Move::Do { command, .. } => Some(*command),
        _ => None,
    }
}

/// The commands among moves, in their order. Takes memory.
pub fn commands_of<'a>(alloc: Global, moves: &[Move<'a>]) -> Result<Vec<Asked<'a>>, AllocError>
    ensures { IfOk result (λ commands. map asked_for commands.items ≡ commands_in (map step_of moves.now)) }
{
    let mut commands = Vec::new(alloc);
    'each: for step in moves {
        take_command(command_in(step), &mut commands)?;
    }
    Ok(commands)
}

/// Puts a command behind others, if there is one.
fn take_command<'a>(
    command: Option<Asked<'a>>,
    commands: &mut Vec<Asked<'a>>,
) -> Result<(), AllocError>
    ensures { OnOk result (map asked_for commands.new.items
        ≡ map asked_for commands.old.items ++ listed (option_map asked_for command.entry)) }
{
    if let Some(command) = command {
        commands.push(command)?;
    }
    Ok(())
}
