//! The steps of a script, taken on an image's file.

ghost use Rattle.std.specs.Prelude.{◌≡◌, ◌⊎◌, Bool, false, map, IfErr, IfOk};
ghost use Rattle.std.specs.List.{AllByRecursion, AllZip};
ghost use Rattle.lfs_exchange.specs.Handing.{IsUnread};
ghost use Rattle.lfs_history.specs.Meaning.{step_of};
ghost use Rattle.lfs_history.specs.Taking.{KeepsInRange, MayKeep};
ghost use Rattle.lfs_history.specs.declared.terms.Terms.{Terms};
ghost use Rattle.lfs_host.specs.Scene.{KeepsOutput};
ghost use Rattle.lfs_report.specs.Stop.{stopped_by};
ghost use Rattle.lfs_request.specs.declared.operation.Operation.TheVariants.{Batch};
ghost use Rattle.lfs_serve.specs.Batching.{AreOnTerms, BecomesOf, IsRefusedLine, KeepInRange, MayBeOne, ReadsScript, SaysNoSteps, TakesText, as_asked};
ghost use Rattle.lfs_serve.specs.Lines.{EndsLines};
ghost use Rattle.lfs_serve.specs.Program.{EndsOperation, OperationLeavesRest, operation_reads_input};
ghost use Rattle.lfs_texts.specs.Script.{SaysLine, asking_lines};

use crate::stepping::stepped;
use lfs_exchange::{kind_of_steps, read_contents, read_input, taken_up};
use lfs_history::{Move, Terms};
use lfs_host::Host;
use lfs_open::{commands_of, moves_of, read_lines};
use lfs_report::{Context, Stop, stop_of_line, with_line, with_number};
use lfs_request::{Fault, Request};
use lfs_step::Step;
use lfs_texts::{Script, ScriptFault, ScriptLine, first_other, script_lines, script_of};
use std::alloc::Global;

/// Takes the steps of a script on an image's file, all of them or none, and writes what they leave once: the script is read first, and
/// then each file of the host that its lines put. They are one change where that is asked for, and then commands alone. Takes memory.
pub(crate) fn batched<H: Host>(
    alloc: Global,
    host: &mut H,
    request: &Request<'_>,
    context: &mut Context,
    file: Option<&str>,
    terms: Terms,
    one: bool,
) -> Result<(), Stop>
    requires { MayKeep terms.keep }
    ensures ended { EndsOperation (Batch file.entry terms one) request.now.takes_older request.now.size request.now.image.now
        (H.known host.old) (H.known host.new) (stopped_by result) }
    ensures rest { OperationLeavesRest (Batch file.entry terms one) (H.known host.old) (H.known host.new) }
{
    let text = script_text(alloc, host, file)?;
    let end = text_batched(alloc, host, request, context, &text, terms, one);
    lined(alloc, &text, context, end)
}

/// The end of a script, with the line that it is about.
fn lined(
    alloc: Global,
    text: &[u8],
    context: &mut Context,
    end: Result<(), Stop>,
) -> Result<(), Stop>
    ensures { stopped_by result ≡ stopped_by end }
{
    match end {
        Ok(()) => Ok(()),
        Err(stop) => Err(with_line(alloc, text, context, stop)),
    }
}

/// The text of a script: of a file of the host, or of standard input.
fn script_text<H: Host>(alloc: Global, host: &mut H, file: Option<&str>) -> Result<Vec<u8>, Fault>
    ensures text { IfOk result (λ text. ReadsScript file.entry (H.known host.old) text.items) }
    ensures refused { IfErr result (IsUnread (H.known host.new)) }
    ensures unread { (terms : Terms) → (one : Bool) → operation_reads_input (Batch file.entry terms one) ≡ false
        → (H.known host.new).typed ≡ (H.known host.old).typed }
    ensures kept { KeepsOutput (H.known host.old) (H.known host.new) }
{
    match file {
        Some(name) => read_contents(alloc, host, name),
        None => read_input(alloc, host),
    }
}

/// Takes the steps of a script's text.
fn text_batched<H: Host>(
    alloc: Global,
    host: &mut H,
    request: &Request<'_>,
    context: &mut Context,
    text: &[u8],
    terms: Terms,
    one: bool,
) -> Result<(), Stop>
    requires { MayKeep terms.keep }
    ensures ended { EndsLines (TakesText (H.known host.old).files terms one text.now)
        (λ why. IsUnread (H.known host.new) why ⊎ SaysNoSteps one text.now why)
        request.now.takes_older request.now.size request.now.image.now (H.known host.old) (H.known host.new) (stopped_by result) }
    ensures typed { (H.known host.new).typed ≡ (H.known host.old).typed }
    ensures made { (H.known host.new).made ≡ (H.known host.old).made }
{
    let script = script_of(alloc, text);
    match lines_said(alloc, &script, terms, one) {
        Ok(lines) => lines_batched(alloc, host, request, context, &lines, terms.keep, one),
        Err(first) => Err(stop_of_line(first)),
    }
}

/// What the lines of a script say, which are commands alone where they are to be one change; or the first that is refused.
fn lines_said<'a>(
    alloc: Global,
    script: &'a Script<'_>,
    terms: Terms,
    one: bool,
) -> Result<Vec<ScriptLine<'a>>, ScriptFault>
    ensures lines { IfOk result (λ lines. AllZip SaysLine (asking_lines script.now) lines.items) }
    ensures terms { IfOk result (λ lines. AreOnTerms terms lines.items) }
    ensures one { IfOk result (λ lines. MayBeOne one lines.items) }
    ensures refused { IfErr result (IsRefusedLine one script.now) }
{
    let lines = script_lines(alloc, script, terms)?;
    if !one {
        return Ok(lines);
    }
    match first_other(&lines) {
        Some(other) => Err(other),
        None => Ok(lines),
    }
}

/// Takes the steps of a script's lines, behind which so many images of the past are kept.
fn lines_batched<H: Host>(
    alloc: Global,
    host: &mut H,
    request: &Request<'_>,
    context: &mut Context,
    lines: &[ScriptLine<'_>],
    keep: Option<u32>,
    one: bool,
) -> Result<(), Stop>
    requires range { KeepInRange lines.now }
    requires keep { MayKeep keep }
    ensures ended { EndsLines (BecomesOf (H.known host.old).files lines.now one keep) (IsUnread (H.known host.new))
        request.now.takes_older request.now.size request.now.image.now (H.known host.old) (H.known host.new) (stopped_by result) }
    ensures typed { (H.known host.new).typed ≡ (H.known host.old).typed }
    ensures made { (H.known host.new).made ≡ (H.known host.old).made }
{
    let read = read_lines(alloc, host, lines)?;
    let moves = moves_of(alloc, lines, &read)?;
    let end = moves_batched(alloc, host, request, context, &moves, keep, one);
    numbered(lines, end)
}

/// The end of lines, with the number of the one that it is about.
fn numbered(lines: &[ScriptLine<'_>], end: Result<(), Stop>) -> Result<(), Stop>
    ensures { stopped_by result ≡ stopped_by end }
{
    match end {
        Ok(()) => Ok(()),
        Err(stop) => Err(with_number(lines, stop)),
    }
}

/// Takes steps as they are, or their commands as one change where there are any.
fn moves_batched<H: Host>(
    alloc: Global,
    host: &mut H,
    request: &Request<'_>,
    context: &mut Context,
    moves: &[Move<'_>],
    keep: Option<u32>,
    one: bool,
) -> Result<(), Stop>
    requires range { AllByRecursion (λ step. KeepsInRange (step_of step)) moves.now }
    requires keep { MayKeep keep }
    ensures ended { EndsLines (λ steps. steps ≡ as_asked one keep (map step_of moves.now)) (IsUnread (H.known host.new))
        request.now.takes_older request.now.size request.now.image.now (H.known host.old) (H.known host.new) (stopped_by result) }
    ensures typed { (H.known host.new).typed ≡ (H.known host.old).typed }
    ensures made { (H.known host.new).made ≡ (H.known host.old).made }
{
    if !one || moves.is_empty() {
        return moves_taken(alloc, host, request, context, moves);
    }
    let commands = commands_of(alloc, moves)?;
    let change = [Move::Together {
        commands: &commands,
        keep,
    }];
    moves_taken(alloc, host, request, context, &change)
}

/// Takes steps.
fn moves_taken<H: Host>(
    alloc: Global,
    host: &mut H,
    request: &Request<'_>,
    context: &mut Context,
    steps: &[Move<'_>],
) -> Result<(), Stop>
    requires { AllByRecursion (λ step. KeepsInRange (step_of step)) steps.now }
    ensures ended { EndsLines (λ taken. taken ≡ map step_of steps.now) (IsUnread (H.known host.new))
        request.now.takes_older request.now.size request.now.image.now (H.known host.old) (H.known host.new) (stopped_by result) }
    ensures typed { (H.known host.new).typed ≡ (H.known host.old).typed }
    ensures made { (H.known host.new).made ≡ (H.known host.old).made }
{
    let handed = taken_up(alloc, host, kind_of_steps(steps), 0, request.image)?;
    stepped(alloc, host, request, context, handed, Step::Change(steps))
}
