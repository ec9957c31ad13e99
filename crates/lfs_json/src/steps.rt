//! The lines of changes of a history.

ghost use Rattle.std.specs.Prelude.{◌≡◌, ◌++◌, OnOk};
ghost use Rattle.lfs_json.specs.Line.{line_of};
ghost use Rattle.lfs_json.specs.Steps.{json_of_step, state_word};

use crate::line::{begin_line, end_line};
use crate::members::{add_number, add_text};
use std::alloc::{AllocError, Global};

/// Whether a change is one of those that are done.
fn state_word(done: bool) -> &'static str
    ensures { result.now ≡ state_word done }
{
    if done { "done" } else { "undone" }
}

/// Adds the line in front of what a change changed: an object with `number`, from the oldest on, and `state`, `done` or `undone`.
pub fn append_json_step(
    alloc: Global,
    text: &mut Vec<u8>,
    number: u64,
    done: bool,
) -> Result<(), AllocError>
    ensures { OnOk result (text.new.items ≡ text.old.items ++ line_of (json_of_step number done)) }
{
    let mut line = begin_line(alloc, text)?;
    add_number(&mut line, "number", number)?;
    add_text(&mut line, "state", state_word(done))?;
    end_line(text, line)?;
    Ok(())
}
