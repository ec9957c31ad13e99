//! What an image holds, packed into a new one.

ghost use Rattle.lfs_report.specs.Stop.{stopped_by};
ghost use Rattle.lfs_request.specs.SaidLimits.{AreSaidInRange};
ghost use Rattle.lfs_request.specs.declared.operation.Operation.TheVariants.{Repack};
ghost use Rattle.lfs_serve.specs.Program.{EndsOperation, OperationLeavesRest};

use crate::packing::told;
use crate::stepping::stepped;
use lfs_exchange::{StepKind, taken_up};
use lfs_host::Host;
use lfs_open::{counted_for, open_source};
use lfs_pack::pack_rows;
use lfs_report::{Context, Stop};
use lfs_request::{Extent, Request, SaidLimits, SourceImage};
use lfs_step::Step;
use std::alloc::Global;

/// Packs what another image holds, which is read behind the claim of the new one's name. Takes memory.
pub(crate) fn repacked<H: Host>(
    alloc: Global,
    host: &mut H,
    request: &Request<'_>,
    context: &mut Context,
    source: &SourceImage<'_>,
    extent: Option<Extent>,
    limits: SaidLimits,
    most: u32,
) -> Result<(), Stop>
    requires { AreSaidInRange limits }
    ensures ended { EndsOperation (Repack source.now extent limits most) request.now.takes_older request.now.size request.now.image.now
        (H.known host.old) (H.known host.new) (stopped_by result) }
    ensures rest { OperationLeavesRest (Repack source.now extent limits most) (H.known host.old) (H.known host.new) }
{
    let handed = taken_up(alloc, host, StepKind::Makes, 0, request.image)?;
    let opened = open_source(alloc, host, context, source)?;
    let rows = pack_rows(alloc, &opened.rows, most)?;
    let rows = rows.as_slice();
    let limits = limits.or(opened.limits);
    let count = counted_for(alloc, request.size, extent, limits, rows, opened.len)?;
    let step = Step::Pack {
        count,
        limits,
        rows,
    };
    let end = stepped(alloc, host, request, context, handed, step);
    told(alloc, request.size, limits, rows, context, end)
}
