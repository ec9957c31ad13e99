//! Operations whose words say all of a step but for bytes that are read once the image is.

ghost use Rattle.lfs_fs.specs.Superblock.{IsLimits};
ghost use Rattle.lfs_report.specs.Stop.{stopped_by};
ghost use Rattle.lfs_request.specs.Operation.{IsOperationInRange};
ghost use Rattle.lfs_request.specs.declared.operation.Operation.TheVariants.{Adopt, Ask, Change, Forget, Format};
ghost use Rattle.lfs_serve.specs.Program.{EndsOperation, OperationLeavesRest};

use crate::stepping::{stepped, stepped_in};
use lfs_exchange::{StepKind, input_of, kind_of_query, question_of, taken_up};
use lfs_fs::Limits;
use lfs_history::{Move, Source, filled};
use lfs_host::Host;
use lfs_json::Form;
use lfs_open::asked_by;
use lfs_report::{Context, Stop};
use lfs_request::{Manner, Query, Request, View};
use lfs_step::Step;
use std::alloc::Global;

/// Makes a new image. Takes memory.
pub(crate) fn formatted<H: Host>(
    alloc: Global,
    host: &mut H,
    request: &Request<'_>,
    context: &mut Context,
    count: u32,
    limits: Limits,
) -> Result<(), Stop>
    requires { IsLimits limits }
    ensures ended { EndsOperation (Format count limits) request.now.takes_older request.now.size request.now.image.now
        (H.known host.old) (H.known host.new) (stopped_by result) }
    ensures rest { OperationLeavesRest (Format count limits) (H.known host.old) (H.known host.new) }
{
    let handed = taken_up(alloc, host, StepKind::Makes, 0, request.image)?;
    let step = Step::Format { count, limits };
    stepped(alloc, host, request, context, handed, step)
}

/// Asks something of an image, as it is looked at, which is answered in a form: another image is read last. Takes memory.
pub(crate) fn queried<H: Host>(
    alloc: Global,
    host: &mut H,
    request: &Request<'_>,
    context: &mut Context,
    query: &Query<'_, &str>,
    form: Form,
    view: View,
) -> Result<(), Stop>
    ensures ended { EndsOperation (Ask query.now form view) request.now.takes_older request.now.size request.now.image.now
        (H.known host.old) (H.known host.new) (stopped_by result) }
    ensures rest { OperationLeavesRest (Ask query.now form view) (H.known host.old) (H.known host.new) }
{
    let handed = taken_up(
        alloc,
        host,
        kind_of_query(query),
        view.start(),
        request.image,
    )?;
    let asked = question_of(alloc, host, query)?;
    let question = asked_by(alloc, view.by_device, request.size, &handed.image, asked)?;
    let manner = Manner {
        takes_older: request.takes_older,
        view,
    };
    let step = Step::Ask {
        query: question,
        form,
    };
    stepped_in(alloc, host, request, context, manner, handed, step)
}

/// Forgets all but an image. Takes memory.
pub(crate) fn forgotten<H: Host>(
    alloc: Global,
    host: &mut H,
    request: &Request<'_>,
    context: &mut Context,
) -> Result<(), Stop>
    ensures ended { EndsOperation Forget request.now.takes_older request.now.size request.now.image.now
        (H.known host.old) (H.known host.new) (stopped_by result) }
    ensures rest { OperationLeavesRest Forget (H.known host.old) (H.known host.new) }
{
    let handed = taken_up(alloc, host, StepKind::Forgets, 0, request.image)?;
    stepped(alloc, host, request, context, handed, Step::Forget)
}

/// Takes an image over as a device left it, and says in a form which blocks change. Takes memory.
pub(crate) fn adopted<H: Host>(
    alloc: Global,
    host: &mut H,
    request: &Request<'_>,
    context: &mut Context,
    form: Form,
    replaces: bool,
) -> Result<(), Stop>
    ensures ended { EndsOperation (Adopt form replaces) request.now.takes_older request.now.size request.now.image.now
        (H.known host.old) (H.known host.new) (stopped_by result) }
    ensures rest { OperationLeavesRest (Adopt form replaces) (H.known host.old) (H.known host.new) }
{
    let handed = taken_up(alloc, host, StepKind::Adopts, 0, request.image)?;
    let step = Step::Adopt { form, replaces };
    stepped(alloc, host, request, context, handed, step)
}

/// Takes a step on an image's history: the contents that it puts are read last. Takes memory.
pub(crate) fn changed<H: Host>(
    alloc: Global,
    host: &mut H,
    request: &Request<'_>,
    context: &mut Context,
    step: &Move<'_, Source<'_>>,
) -> Result<(), Stop>
    requires { IsOperationInRange (Change step.now) }
    ensures ended { EndsOperation (Change step.now) request.now.takes_older request.now.size request.now.image.now
        (H.known host.old) (H.known host.new) (stopped_by result) }
    ensures rest { OperationLeavesRest (Change step.now) (H.known host.old) (H.known host.new) }
{
    let handed = taken_up(alloc, host, StepKind::Changes, 0, request.image)?;
    let input = input_of(alloc, host, step)?;
    let steps = [filled(step, &input)];
    stepped(alloc, host, request, context, handed, Step::Change(&steps))
}
