//! The line of a script for which none of its steps are done.

ghost use Rattle.std.specs.Prelude.{◌≡◌};
ghost use Rattle.lfs_report.specs.RefusedLine.{fault_of_line, is_of_step, line_refused, numbered};

use crate::context::Context;
use crate::stated::Statement;
use crate::stop::Stop;
use lfs_command::Refusal;
use lfs_request::Fault;
use lfs_texts::{Flaw, LineFault, ScriptFault, ScriptLine, line_at};
use std::alloc::Global;

/// What a fault of a line is told as.
fn fault_of_line(fault: LineFault) -> Fault
    ensures { result ≡ fault_of_line fault }
{
    match fault {
        LineFault::Memory => Fault::Refused(Refusal::Memory),
        LineFault::BadHex => Fault::BadHex,
        LineFault::BadLine => Fault::BadLine,
    }
}

/// Why the line of a number is refused, with what is wrong in it; want of memory is of no line.
pub fn stop_at(number: usize, fault: Fault, flaw: Option<Flaw>) -> Stop
    ensures fault { result.fault ≡ fault }
    ensures line { result.statement ≡ line_refused number fault flaw }
{
    let statement = match fault {
        Fault::Refused(Refusal::Memory) => None,
        _ => Some(Statement::Line(number, flaw)),
    };
    Stop {
        fault,
        statement,
        count: None,
        at: 0,
    }
}

/// Why a line says no step.
pub fn stop_of_line(first: ScriptFault) -> Stop
    ensures fault { result.fault ≡ fault_of_line first.fault }
    ensures line { result.statement ≡ line_refused first.number (fault_of_line first.fault) first.flaw }
{
    stop_at(first.number, fault_of_line(first.fault), first.flaw)
}

/// Why steps of lines are refused; where one is, with the number of its line.
pub fn with_number(lines: &[ScriptLine<'_>], stop: Stop) -> Stop
    ensures fault { result.fault ≡ stop.fault }
    ensures line { result.statement ≡ numbered lines.now stop }
{
    if !is_of_step(stop.fault) {
        return stop;
    }
    let Some(line) = lines.get(stop.at) else {
        return stop;
    };
    stop.with(Some(Statement::Line(line.number, None)))
}

/// Whether a fault is of a step, and neither of the image and its journal nor want of memory.
fn is_of_step(fault: Fault) -> bool
    ensures { result ≡ is_of_step fault }
{
    match fault {
        Fault::Refused(Refusal::Memory) => false,
        Fault::Refused(_) | Fault::Step(_) => true,
        _ => false,
    }
}

/// Why a script is refused; where a line of its text is, with that in `context`. Takes memory, and tells of no line where there is none.
pub fn with_line(alloc: Global, text: &[u8], context: &mut Context, stop: Stop) -> Stop
    ensures { result.fault ≡ stop.fault }
{
    let Some(Statement::Line(number, _)) = stop.statement else {
        return stop;
    };
    if let Some(line) = copied_line(alloc, text, number) {
        context.text = line;
        return stop;
    }
    stop.with(None)
}

/// A copy of the line of a text that has this number.
fn copied_line(alloc: Global, text: &[u8], number: usize) -> Option<Vec<u8>> {
    Vec::from_slice(alloc, line_at(text, number)?).ok()
}
