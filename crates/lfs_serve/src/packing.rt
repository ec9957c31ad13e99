//! What is below a folder of the host, packed into a new image.

ghost use Rattle.std.specs.Prelude.{◌≡◌};
ghost use Rattle.lfs_fs.specs.Superblock.{IsLimits};
ghost use Rattle.lfs_report.specs.Stop.{stopped_by};
ghost use Rattle.lfs_request.specs.declared.operation.Operation.TheVariants.{Pack};
ghost use Rattle.lfs_serve.specs.Program.{EndsOperation, OperationLeavesRest};

use crate::stepping::stepped;
use lfs_exchange::{StepKind, taken_up};
use lfs_fs::Limits;
use lfs_host::Host;
use lfs_open::{counted, folder_of, rows_to_pack};
use lfs_pack::PackRow;
use lfs_report::{Context, Stop, with_need, with_row};
use lfs_request::{Extent, Request};
use lfs_step::Step;
use std::alloc::Global;

/// Packs what is below a folder of the host: the folder is read first. Takes memory.
pub(crate) fn packed<H: Host>(
    alloc: Global,
    host: &mut H,
    request: &Request<'_>,
    context: &mut Context,
    extent: Extent,
    limits: Limits,
    dir: &str,
    most: u32,
) -> Result<(), Stop>
    requires { IsLimits limits }
    ensures ended { EndsOperation (Pack extent limits dir.entry most) request.now.takes_older request.now.size request.now.image.now
        (H.known host.old) (H.known host.new) (stopped_by result) }
    ensures rest { OperationLeavesRest (Pack extent limits dir.entry most) (H.known host.old) (H.known host.new) }
{
    let folder = folder_of(alloc, host, dir)?;
    let rows = rows_to_pack(alloc, &folder, most)?;
    let rows = rows.as_slice();
    let count = counted(alloc, request.size, extent, limits, rows)?;
    let handed = taken_up(alloc, host, StepKind::Makes, 0, request.image)?;
    let step = Step::Pack {
        count,
        limits,
        rows,
    };
    let end = stepped(alloc, host, request, context, handed, step);
    told(alloc, request.size, limits, rows, context, end)
}

/// The end of packing rows, with what they need, or the row that is refused.
pub(crate) fn told(
    alloc: Global,
    size: u32,
    limits: Limits,
    rows: &[PackRow<'_>],
    context: &mut Context,
    end: Result<(), Stop>,
) -> Result<(), Stop>
    requires { IsLimits limits }
    ensures { stopped_by result ≡ stopped_by end }
{
    match end {
        Ok(()) => Ok(()),
        Err(stop) => {
            let stop = with_need(alloc, size, limits, rows, stop);
            Err(with_row(alloc, limits, rows, context, stop))
        }
    }
}
