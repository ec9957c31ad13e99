//! Runs of steps.

ghost use Rattle.std.specs.Prelude.{◌≡◌, map, IfOk, OnErr};
ghost use Rattle.std.specs.List.{AllByRecursion};
ghost use Rattle.std.specs.Result.{result_err};
ghost use Rattle.lfs_history.specs.Meaning.{step_of};
ghost use Rattle.lfs_history.specs.Taking.{KeepsInRange, Run};

use crate::session::Session;
use lfs_history::{Move, StepFault};
use std::alloc::{AllocError, Global};

impl Session {
    ghost use Rattle.std.specs.Result.{result_err};
    ghost use Rattle.lfs_history.specs.Meaning.{step_of};
    ghost use Rattle.lfs_history.specs.Taking.{KeepsInRange, Takes};

    /// Takes one step. A refusal leaves all as it was.
    pub fn step(&mut self, alloc: Global, step: &Move<'_>) -> Result<(), StepFault>
        requires { KeepsInRange (step_of step.now) }
        ensures { Takes (step_of step.now) (result_err result) self.old self.new }
    {
        match step {
            Move::Do {
                command,
                keep: None,
            } => self.command(alloc, command),
            Move::Do {
                command,
                keep: Some(keep),
            } => self.command_keep(alloc, command, *keep),
            Move::Together { commands, keep } => self.together(alloc, commands, *keep),
            Move::Undo { steps } => self.undo_steps(*steps),
            Move::Redo { steps } => self.redo_steps(*steps),
            Move::Forget => {
                self.forget();
                Ok(())
            }
        }
    }
}

/// Takes steps, one after another, also behind one that is refused, and gives the reply to each. Where there is no memory for
/// the replies, no step is taken.
pub fn run_steps(
    alloc: Global,
    session: &mut Session,
    steps: &[Move<'_>],
) -> Result<Vec<Result<(), StepFault>>, AllocError>
    requires { AllByRecursion (λ step. KeepsInRange (step_of step)) steps.now }
    ensures run { IfOk result (λ replies. Run (map step_of steps.now) (map result_err replies.items) session.old session.new) }
    ensures unchanged { OnErr result (session.new ≡ session.old) }
{
    let mut replies = Vec::with_capacity(alloc, steps.len())?;
    for step in steps {
        replies.push(session.step(alloc, step))?;
    }
    Ok(replies)
}
