//! What is asked for on an image's file.

ghost use Rattle.std.specs.Prelude.{◌⊎◌};
ghost use Rattle.lfs_report.specs.Stop.{stopped_by};
ghost use Rattle.lfs_request.specs.Operation.{IsOperationInRange};
ghost use Rattle.lfs_serve.specs.Program.{EndsRequest, EndsOperation, IsNotSpared, IsSpared, OperationLeavesRest};

use crate::batching::batched;
use crate::packing::packed;
use crate::plain_operations::{adopted, changed, forgotten, formatted, queried};
use crate::repacking::repacked;
use crate::tree_operations::tree_changed;
use lfs_exchange::spare;
use lfs_host::Host;
use lfs_open::{extracted, salvaged};
use lfs_report::{Context, Stop, report_end, report_later, report_within};
use lfs_request::{Operation, Request};
use std::alloc::Global;

/// Does what is asked for, and answers the status that the program ends with. A fault is told on standard error, with what is known of
/// it beside. Commits of a later disk version in what is read as an image are refused with `Version`, or told of where the request
/// takes the state before them. Takes memory.
pub fn served<H: Host>(alloc: Global, host: &mut H, request: &Request<'_>) -> u8
    requires { IsOperationInRange request.now.operation }
    ensures ended { EndsRequest request.now (H.known host.old) (H.known host.new) result }
{
    let mut context = Context::new(alloc);
    let end = asked(alloc, host, request, &mut context);
    let status = report_end(host, request, &end, &context);
    report_later(host, request, context.later);
    report_within(host, request);
    status
}

/// Does what is asked for, unless a new image is, and something has its name.
fn asked<H: Host>(
    alloc: Global,
    host: &mut H,
    request: &Request<'_>,
    context: &mut Context,
) -> Result<(), Stop>
    requires { IsOperationInRange request.now.operation }
    ensures ended { (IsSpared request.now (H.known host.old) × EndsOperation request.now.operation request.now.takes_older request.now.size request.now.image.now
        (H.known host.old) (H.known host.new) (stopped_by result))
        ⊎ IsNotSpared request.now (H.known host.old) (H.known host.new) (stopped_by result) }
    ensures rest { OperationLeavesRest request.now.operation (H.known host.old) (H.known host.new) }
{
    spare(host, request.is_new, request.image)?;
    done(alloc, host, request, context)
}

/// Does the operation that is asked for.
fn done<H: Host>(
    alloc: Global,
    host: &mut H,
    request: &Request<'_>,
    context: &mut Context,
) -> Result<(), Stop>
    requires { IsOperationInRange request.now.operation }
    ensures ended { EndsOperation request.now.operation request.now.takes_older request.now.size request.now.image.now
        (H.known host.old) (H.known host.new) (stopped_by result) }
    ensures rest { OperationLeavesRest request.now.operation (H.known host.old) (H.known host.new) }
{
    match &request.operation {
        Operation::Format { count, limits } => {
            formatted(alloc, host, request, context, *count, *limits)
        }
        Operation::Pack {
            extent,
            limits,
            dir,
            most,
        } => packed(alloc, host, request, context, *extent, *limits, *dir, *most),
        Operation::Repack {
            source,
            extent,
            limits,
            most,
        } => repacked(
            alloc, host, request, context, source, *extent, *limits, *most,
        ),
        Operation::Extract { dir, path, view } => {
            extracted(alloc, host, request, context, *view, *path, *dir)
        }
        Operation::Salvage { dir, view } => salvaged(alloc, host, request, context, *view, *dir),
        Operation::Ask { query, form, view } => {
            queried(alloc, host, request, context, query, *form, *view)
        }
        Operation::Forget => forgotten(alloc, host, request, context),
        Operation::Adopt { form, replaces } => {
            adopted(alloc, host, request, context, *form, *replaces)
        }
        Operation::Change(step) => changed(alloc, host, request, context, step),
        Operation::Tree { change, keep } => {
            tree_changed(alloc, host, request, context, change, *keep)
        }
        Operation::Batch { file, terms, one } => {
            batched(alloc, host, request, context, *file, *terms, *one)
        }
    }
}
