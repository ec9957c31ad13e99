//! A step on an image's file.

ghost use Rattle.std.specs.Prelude.{◌≡◌, ◌⊎◌, ◌&&◌, IfErr, IfOk, OnOk, false, string_bytes};
ghost use Rattle.lfs_exchange.specs.Handing.{IsClaimed, IsHanded};
ghost use Rattle.lfs_serve.specs.StepKind.{kind_of};
ghost use Rattle.lfs_host.specs.Files.{IsTarget};
ghost use Rattle.lfs_exchange.specs.Printing.{HandsOn};
ghost use Rattle.lfs_exchange.specs.declared.step_kind.StepKind.TheVariants.{Asks, Recounts};
ghost use Rattle.lfs_host.specs.HostCall.{Flushing};
ghost use Rattle.lfs_host.specs.Scene.{HasRefused, KeepsAll, KeepsInput};
ghost use Rattle.lfs_request.specs.declared.fault.Fault.TheVariants.{CannotWrite, Differ};
ghost use Rattle.lfs_report.specs.Stop.{stopped_by};
ghost use Rattle.lfs_request.specs.View.{start_of};
ghost use Rattle.lfs_step.specs.Outcome.{Answers, SendsText, given};
ghost use Rattle.lfs_step.specs.Step.{IsStepInRange, may_take_older};
ghost use Rattle.lfs_open.specs.Blamed.{IsBlamed};
ghost use Rattle.lfs_serve.specs.Program.{EndsStep, TellsVersion, as_it_is};

use crate::later_read::pass_step;
use crate::noting::{
    add_lines, by_device, lines_taken_over, note_step, note_unfinished, unfinished_in,
};
use crate::seeing::seen_of;
use lfs_exchange::{Handed, Output, StepKind, flush, stored};
use lfs_host::Host;
use lfs_open::{read_by, with_new_image};
use lfs_report::{Context, Stop, stop_of_run};
use lfs_request::{Fault, Manner, Outcome, Request, View};
use lfs_step::{Step, run};
use std::alloc::Global;

/// Whether the state before commits of a later version is taken for the image of a step, if that is asked for.
fn older_for(step: &Step<'_>, takes_older: bool) -> bool
    ensures { result ≡ (may_take_older step.now && takes_older) }
{
    if step.may_take_older() {
        takes_older
    } else {
        false
    }
}

/// Takes a step on the files of an image that were taken up for it, and writes what it leaves. The image is read as it is; the state before
/// commits of a later version is taken for it only if the step carries no command out. Takes memory.
pub(crate) fn stepped<H: Host>(
    alloc: Global,
    host: &mut H,
    request: &Request<'_>,
    context: &mut Context,
    handed: Handed,
    step: Step<'_>,
) -> Result<(), Stop>
    requires kind { handed.kind ≡ kind_of step }
    requires range { IsStepInRange step }
    requires target { IsTarget (H.known host.old).files request.now.image.now (string_bytes handed.target) }
    requires claimed { IsClaimed handed.kind (H.known host.old) (string_bytes handed.target) }
    requires handed { IsHanded handed.kind 0 request.now.image.now (H.known host.old)
        (record { image = handed.image.items; journal = handed.journal.items }) }
    requires tells { TellsVersion step false request.now.size handed.image.items }
    ensures ended { EndsStep step.entry (as_it_is (may_take_older step.entry && request.now.takes_older)) request.now.size request.now.image.now
        (H.known host.old) (H.known host.new) (stopped_by result) }
    ensures typed { (H.known host.new).typed ≡ (H.known host.old).typed }
    ensures made { (H.known host.new).made ≡ (H.known host.old).made }
{
    let view = View {
        by_device: false,
        offset: None,
    };
    let takes_older = older_for(&step, request.takes_older);
    let manner = Manner { takes_older, view };
    stepped_in(alloc, host, request, context, manner, handed, step)
}

/// The same, where the image is read in this manner.
pub(crate) fn stepped_in<H: Host>(
    alloc: Global,
    host: &mut H,
    request: &Request<'_>,
    context: &mut Context,
    manner: Manner,
    handed: Handed,
    step: Step<'_>,
) -> Result<(), Stop>
    requires kind { handed.kind ≡ kind_of step }
    requires range { IsStepInRange step }
    requires target { IsTarget (H.known host.old).files request.now.image.now (string_bytes handed.target) }
    requires claimed { IsClaimed handed.kind (H.known host.old) (string_bytes handed.target) }
    requires handed { IsHanded handed.kind (start_of manner.view) request.now.image.now (H.known host.old)
        (record { image = handed.image.items; journal = handed.journal.items }) }
    requires tells { TellsVersion step manner.view.by_device request.now.size handed.image.items }
    ensures ended { EndsStep step.entry manner request.now.size request.now.image.now
        (H.known host.old) (H.known host.new) (stopped_by result) }
    ensures typed { (H.known host.new).typed ≡ (H.known host.old).typed }
    ensures made { (H.known host.new).made ≡ (H.known host.old).made }
{
    pass_step(manner, &step, request.size, &handed.image, context)?;
    note_step(alloc, manner, &step, request.size, &handed.image, context);
    let Handed {
        kind,
        target,
        image,
        journal,
    } = handed;
    let (whole, lines) = lines_taken_over(alloc, &step, request.size, image);
    let (held, ended) = unfinished_in(alloc, manner, &step, request.size, whole);
    let read = read_by(alloc, manner.view, request.size, held)?;
    let image = note_unfinished(alloc, request.size, read, ended, context);
    match taken(alloc, host, request, context, step, image, journal) {
        Ok(outcome) => {
            stored(alloc, host, kind, target.as_str(), &outcome)?;
            add_lines(context, lines);
            Ok(())
        }
        Err(stop) => Err(stopped(alloc, host, request.size, kind, target.as_str(), stop)),
    }
}

/// Hands on the answer to a question; of other steps nothing is answered.
fn handed_on<H: Host>(host: &mut H, kind: StepKind) -> Result<(), Fault>
    ensures flushed { OnOk result (HandsOn kind (H.known host.new)) }
    ensures refused { IfErr result (λ fault. (fault ≡ CannotWrite) × HasRefused (H.known host.new) Flushing × ((kind ≡ Asks) ⊎ (kind ≡ Recounts))) }
    ensures kept { KeepsAll (H.known host.old) (H.known host.new) }
{
    match kind {
        StepKind::Asks | StepKind::Recounts => flush(host),
        _ => Ok(()),
    }
}

/// Why a step on an image of this name ended early: what differs of two images, or which files are longer than is asked, is handed on.
fn stopped<H: Host>(
    alloc: Global,
    host: &mut H,
    size: u32,
    kind: StepKind,
    name: &str,
    stop: Stop,
) -> Stop
    ensures ended { ((result.fault ≡ stop.fault) × (stop.fault ≡ Differ → HandsOn kind (H.known host.new)))
        ⊎ ((stop.fault ≡ Differ) × (result.fault ≡ CannotWrite) × HasRefused (H.known host.new) Flushing × ((kind ≡ Asks) ⊎ (kind ≡ Recounts))) }
    ensures blamed { IsBlamed (Some stop.fault) (H.known host.old) → IsBlamed (Some stop.fault) (H.known host.new) }
    ensures kept { KeepsAll (H.known host.old) (H.known host.new) }
{
    let Fault::Differ = stop.fault else {
        return with_new_image(alloc, host, size, name, stop);
    };
    match handed_on(host, kind) {
        Ok(()) => stop,
        Err(fault) => Stop::from(fault),
    }
}

/// Takes a step on what it is handed, and answers what it leaves. The text of what is told of its end is put into `context`.
fn taken<H: Host>(
    alloc: Global,
    host: &mut H,
    request: &Request<'_>,
    context: &mut Context,
    step: Step<'_>,
    image: Vec<u8>,
    journal: Vec<u8>,
) -> Result<Outcome, Stop>
    requires { IsStepInRange step }
    ensures ran { (outcome : Outcome) × Answers step.entry (given request.now.size image.items journal.items) outcome
        × (outcome.fault ≡ stopped_by result)
        × SendsText step.entry (given request.now.size image.items journal.items) outcome (H.known host.old).printed (H.known host.new).printed
        × IfOk result (λ left. left ≡ outcome) }
    ensures blamed { IsBlamed (stopped_by result) (H.known host.new) }
    ensures kept { KeepsInput (H.known host.old) (H.known host.new) }
{
    let seen = seen_of(&step);
    let adopts = matches!(step, Step::Adopt { .. });
    let outcome = ran(alloc, host, request.size, step, image, journal);
    match outcome.fault {
        None => Ok(outcome),
        Some(fault) => {
            let outcome = if adopts {
                by_device(alloc, request.size, outcome, context)
            } else {
                outcome
            };
            Err(stop_of_run(alloc, request, fault, outcome, seen, context))
        }
    }
}

/// Runs a step on what it is handed.
fn ran<H: Host>(
    alloc: Global,
    host: &mut H,
    size: u32,
    step: Step<'_>,
    image: Vec<u8>,
    journal: Vec<u8>,
) -> Outcome
    requires { IsStepInRange step }
    ensures answers { Answers step.entry (given size image.items journal.items) result }
    ensures sent { SendsText step.entry (given size image.items journal.items) result (H.known host.old).printed (H.known host.new).printed }
    ensures blamed { IsBlamed result.fault (H.known host.new) }
    ensures kept { KeepsInput (H.known host.old) (H.known host.new) }
{
    let out = &mut Output::new(host);
    run(alloc, step, size, image, journal, out)
}
