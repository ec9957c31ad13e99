//! The steps that a script asks for.

ghost use Rattle.std.specs.Prelude.{IfErr, IfOk, OnOk};
ghost use Rattle.std.specs.List.{AllByRecursion, AllZip};
ghost use Rattle.lfs_texts.specs.Lines.{IsLineFault};
ghost use Rattle.lfs_texts.specs.Script.{HasItsWords, IsFirstFault, IsFirstSilent, IsLineSaid, SaysLine, TakesStep, asking_lines};
ghost use Rattle.lfs_texts.specs.Steps.{IsOnTerms};

use crate::line_fault::LineFault;
use crate::line_words::LineWords;
use crate::script::{Script, fault_at};
use crate::script_fault::ScriptFault;
use crate::script_line::ScriptLine;
use crate::steps::step_said;
use lfs_history::Terms;
use std::alloc::Global;

/// Puts what a line asks for behind the rest.
fn take_step<'a>(
    alloc: Global,
    line: &'a LineWords<'_>,
    terms: Terms,
    said: &mut Vec<ScriptLine<'a>>,
) -> Result<(), LineFault>
    requires { HasItsWords line.now }
    ensures taken { OnOk result (TakesStep terms line.now said.old.items said.new.items) }
    ensures refused { IfErr result (IsLineFault line.now.line.now) }
{
    let step = step_said(alloc, &line.words, terms)?;
    said.push(ScriptLine {
        number: line.number,
        step,
    })?;
    Ok(())
}

/// What lines ask for, in their order, or the first that says no step.
fn lines_said<'a>(
    alloc: Global,
    lines: &'a [LineWords<'_>],
    terms: Terms,
) -> Result<Vec<ScriptLine<'a>>, ScriptFault>
    requires { AllByRecursion HasItsWords lines.now }
    ensures said { IfOk result (λ said. AllZip IsLineSaid lines.now said.items) }
    ensures terms { IfOk result (λ said. AllByRecursion (λ line. IsOnTerms terms line.step) said.items) }
    ensures refused { IfErr result (IsFirstSilent lines.now) }
{
    let mut said = Vec::new(alloc);
    'each: for line in lines {
        if let Err(fault) = take_step(alloc, line, terms, &mut said) {
            return Err(fault_at(alloc, line.number, line.line, fault));
        }
    }
    Ok(said)
}

/// What the lines of a script ask for, in their order, each command on these terms, and none of those that are empty or begin with `#`.
/// A fault at the first line that says no step, with what is wrong in it and at which column: `BadHex`
/// where only the digits of an attribute's kind or value spell nothing, `BadLine` otherwise; `Memory` says only that a growth was
/// refused.
pub fn script_lines<'a>(
    alloc: Global,
    script: &'a Script<'_>,
    terms: Terms,
) -> Result<Vec<ScriptLine<'a>>, ScriptFault>
    ensures lines { IfOk result (λ lines. AllZip SaysLine (asking_lines script.now) lines.items) }
    ensures terms { IfOk result (λ lines. AllByRecursion (λ line. IsOnTerms terms line.step) lines.items) }
    ensures refused { IfErr result (IsFirstFault script.now) }
{
    let said = lines_said(alloc, &script.lines, terms)?;
    match script.fault {
        Some(fault) => Err(fault),
        None => Ok(said),
    }
}
