//! Changes of whole trees in an image's file.

ghost use Rattle.std.specs.Prelude.{◌≡◌, ◌⊎◌, Some, false, string_bytes};
ghost use Rattle.lfs_exchange.specs.Handing.{IsClaimed, IsHanded, IsNotTakenUp};
ghost use Rattle.lfs_exchange.specs.declared.step_kind.StepKind.TheVariants.{Changes};
ghost use Rattle.lfs_history.specs.Filling.{bytes_given};
ghost use Rattle.lfs_history.specs.Taking.{MayKeep};
ghost use Rattle.lfs_host.specs.Files.{IsTarget};
ghost use Rattle.lfs_host.specs.Scene.{KeepsScene};
ghost use Rattle.lfs_report.specs.Stop.{stopped_by};
ghost use Rattle.lfs_request.specs.declared.fault.Fault.{Fault};
ghost use Rattle.lfs_request.specs.declared.operation.Operation.TheVariants.{Tree};
ghost use Rattle.lfs_request.specs.declared.tree_change.TreeChange.TheVariants.{Put, Sync};
ghost use Rattle.lfs_serve.specs.Program.{EndsStep, EndsOperation, OperationLeavesRest, as_it_is};
ghost use Rattle.lfs_step.specs.TreeChanging.{IsChangeInRange};
ghost use Rattle.lfs_step.specs.declared.step.Step.TheVariants as step;

use crate::stepping::stepped;
use lfs_exchange::{Handed, StepKind, source_read, taken_up};
use lfs_history::Source;
use lfs_host::Host;
use lfs_open::folder_of;
use lfs_report::{Context, Stop};
use lfs_request::{Request, TreeChange};
use lfs_step::Step;
use lfs_sync::{SyncRow, sync_rows};
use std::alloc::Global;

/// Changes a whole tree of an image's file, as one change: a folder is read first, and contents that are put last. Takes memory.
pub(crate) fn tree_changed<H: Host>(
    alloc: Global,
    host: &mut H,
    request: &Request<'_>,
    context: &mut Context,
    change: &TreeChange<'_, Source<'_>, &str>,
    keep: Option<u32>,
) -> Result<(), Stop>
    requires { MayKeep keep }
    ensures ended { EndsOperation (Tree change.now keep) request.now.takes_older request.now.size request.now.image.now
        (H.known host.old) (H.known host.new) (stopped_by result) }
    ensures rest { OperationLeavesRest (Tree change.now keep) (H.known host.old) (H.known host.new) }
{
    match change {
        TreeChange::Remove { path } => {
            let change = TreeChange::Remove { path: *path };
            change_taken(alloc, host, request, context, change, keep)
        }
        TreeChange::Make { path } => {
            let change = TreeChange::Make { path: *path };
            change_taken(alloc, host, request, context, change, keep)
        }
        TreeChange::Put { path, bytes, most } => {
            put_with_parents(alloc, host, request, context, *path, bytes, *most, keep)
        }
        TreeChange::Sync { path, rows, most } => {
            synced(alloc, host, request, context, *path, *rows, *most, keep)
        }
    }
}

/// Takes a change of a tree on the image's files, with all that is read for it in hand.
fn change_of_handed<H: Host>(
    alloc: Global,
    host: &mut H,
    request: &Request<'_>,
    context: &mut Context,
    handed: Handed,
    change: TreeChange<'_, &[u8], &[SyncRow<'_>]>,
    keep: Option<u32>,
) -> Result<(), Stop>
    requires keep { MayKeep keep }
    requires range { IsChangeInRange change }
    requires kind { handed.kind ≡ Changes }
    requires target { IsTarget (H.known host.old).files request.now.image.now (string_bytes handed.target) }
    requires claimed { IsClaimed handed.kind (H.known host.old) (string_bytes handed.target) }
    requires handed { IsHanded handed.kind 0 request.now.image.now (H.known host.old)
        (record { image = handed.image.items; journal = handed.journal.items }) }
    ensures ended { EndsStep (step.Tree change.entry keep) (as_it_is false) request.now.size
        request.now.image.now (H.known host.old) (H.known host.new) (stopped_by result) }
    ensures typed { (H.known host.new).typed ≡ (H.known host.old).typed }
    ensures made { (H.known host.new).made ≡ (H.known host.old).made }
{
    let step = Step::Tree { change, keep };
    stepped(alloc, host, request, context, handed, step)
}

/// Takes a change of a tree for which nothing is read but the image's files.
fn change_taken<H: Host>(
    alloc: Global,
    host: &mut H,
    request: &Request<'_>,
    context: &mut Context,
    change: TreeChange<'_, &[u8], &[SyncRow<'_>]>,
    keep: Option<u32>,
) -> Result<(), Stop>
    requires keep { MayKeep keep }
    requires range { IsChangeInRange change }
    ensures ended { EndsStep (step.Tree change.entry keep) (as_it_is false) request.now.size request.now.image.now
        (H.known host.old) (H.known host.new) (stopped_by result)
        ⊎ (KeepsScene (H.known host.old) (H.known host.new) × ((why : Fault) × (stopped_by result ≡ Some why)
        × IsNotTakenUp Changes (H.known host.new) request.now.image.now why)) }
    ensures typed { (H.known host.new).typed ≡ (H.known host.old).typed }
    ensures made { (H.known host.new).made ≡ (H.known host.old).made }
{
    let handed = taken_up(alloc, host, StepKind::Changes, 0, request.image)?;
    change_of_handed(alloc, host, request, context, handed, change, keep)
}

/// The bytes of a source of contents: those that are said, or those that were read of it.
fn contents_of<'a>(source: &'a Source<'a>, read: &'a [u8]) -> &'a [u8]
    ensures { result.now ≡ bytes_given read.now source.now }
{
    match source {
        Source::Said(bytes) => bytes,
        _ => read,
    }
}

/// Puts a file with the directories above it that lack: the contents are read last.
fn put_with_parents<'a, H: Host>(
    alloc: Global,
    host: &mut H,
    request: &Request<'_>,
    context: &mut Context,
    path: &'a [u8],
    source: &'a Source<'a>,
    most: u32,
    keep: Option<u32>,
) -> Result<(), Stop>
    requires { MayKeep keep }
    ensures ended { EndsOperation (Tree (Put path.entry source.now most) keep) request.now.takes_older request.now.size request.now.image.now
        (H.known host.old) (H.known host.new) (stopped_by result) }
    ensures rest { OperationLeavesRest (Tree (Put path.entry source.now most) keep) (H.known host.old) (H.known host.new) }
{
    let handed = taken_up(alloc, host, StepKind::Changes, 0, request.image)?;
    let read = source_read(alloc, host, source)?;
    let bytes = contents_of(source, read.as_slice());
    let change = TreeChange::Put { path, bytes, most };
    change_of_handed(alloc, host, request, context, handed, change, keep)
}

/// Makes what stands at a path like a folder of the host, which is read first.
fn synced<H: Host>(
    alloc: Global,
    host: &mut H,
    request: &Request<'_>,
    context: &mut Context,
    path: &[u8],
    dir: &str,
    most: u32,
    keep: Option<u32>,
) -> Result<(), Stop>
    requires { MayKeep keep }
    ensures ended { EndsOperation (Tree (Sync path.entry dir.entry most) keep) request.now.takes_older request.now.size request.now.image.now
        (H.known host.old) (H.known host.new) (stopped_by result) }
    ensures rest { OperationLeavesRest (Tree (Sync path.entry dir.entry most) keep) (H.known host.old) (H.known host.new) }
{
    let folder = folder_of(alloc, host, dir)?;
    let rows = sync_rows(alloc, &folder)?;
    let change = TreeChange::Sync {
        path,
        rows: rows.as_slice(),
        most,
    };
    change_taken(alloc, host, request, context, change, keep)
}
