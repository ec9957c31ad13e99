//! Commands taken apart into names.

ghost use Rattle.std.specs.Prelude.{◌≡◌, ◌⊎◌, IfOk, IfErr};
ghost use Rattle.lfs_command.specs.AskedFor.{asked_for, named_command};
ghost use Rattle.lfs_command.specs.declared.refusal.Refusal.TheVariants.{Memory, BadPath};
ghost use Rattle.lfs_command.specs.Command.{Spells, SpellsNone};

use crate::command::{Asked, Command, Named};
use crate::paths::names_of;
use crate::refusal::Refusal;
use std::alloc::Global;

/// A command whose paths are taken apart into names: `BadPath` where the text of one of them spells no path. `Memory` says only that a
/// growth was refused.
pub fn by_names<'a>(alloc: Global, command: &Asked<'a>) -> Result<Named<'a>, Refusal>
    ensures spelled { IfOk result (λ named. Spells (asked_for command.now) (named_command named)) }
    ensures refused { IfErr result (λ refusal. (refusal ≡ Memory) ⊎ ((refusal ≡ BadPath) × SpellsNone (asked_for command.now))) }
{
    match *command {
        Command::Mkdir { path } => {
            let path = names_of(alloc, path)?;
            Ok(Command::Mkdir { path })
        }
        Command::Put { path, bytes, most } => {
            let path = names_of(alloc, path)?;
            Ok(Command::Put { path, bytes, most })
        }
        Command::Rm { path } => {
            let path = names_of(alloc, path)?;
            Ok(Command::Rm { path })
        }
        Command::Mv { from, to } => {
            let from = names_of(alloc, from)?;
            let to = names_of(alloc, to)?;
            Ok(Command::Mv { from, to })
        }
        Command::SetAttr { path, kind, value } => {
            let path = names_of(alloc, path)?;
            Ok(Command::SetAttr { path, kind, value })
        }
        Command::RmAttr { path, kind } => {
            let path = names_of(alloc, path)?;
            Ok(Command::RmAttr { path, kind })
        }
        Command::Grow { count } => Ok(Command::Grow { count }),
    }
}
