//! Changes of whole trees.

ghost use Rattle.std.specs.Prelude.{◌≡◌, ◌∷◌, [], ℕ, List, false, map, IfErr, IfOk};
ghost use Rattle.lfs_block.specs.Disk.{IsDisk, image_of};
ghost use Rattle.lfs_change.specs.Change.{AnswersChange, RefusesImage};
ghost use Rattle.lfs_command.specs.Command.{bounded};
ghost use Rattle.lfs_fs.specs.Mounted.{IsMountOf};
ghost use Rattle.lfs_history.specs.Taking.{MayKeep, Move, Together};
ghost use Rattle.lfs_request.specs.Fault.{blames_output, status_of};
ghost use Rattle.lfs_step.specs.Outcome.{Answers, given};
ghost use Rattle.lfs_step.specs.TreeChanging.{IsAsked, IsChangeInRange, asked_by};
ghost use Rattle.lfs_sync.specs.Planned.{plan_asked};
ghost use Rattle.lfs_step.specs.declared.step.Step.TheVariants.{Tree};

use lfs_block::{Blocks, Image};
use lfs_change::changed;
use lfs_command::Refusal;
use lfs_fs::{MOST_HELD, Mounted, mount};
use lfs_history::{Move, Terms};
use lfs_request::{Fault, Outcome, TreeChange};
use lfs_sync::{
    Planned, PlannedKind, SyncRow, commands_of, make_plan, put_plan, remove_plan, sync_plan,
};
use std::alloc::{AllocError, Global};
use std::mem::forget;

/// A change of a tree with all bytes in hand.
type Changing<'a> = TreeChange<'a, &'a [u8], &'a [SyncRow<'a>]>;

/// Changes bytes that are an image, with blocks of `size` bytes, by commands that follow from it, as one change of the history that it and
/// its journal denote. Takes memory.
pub(crate) fn tree_changed(
    alloc: Global,
    change: &Changing<'_>,
    keep: Option<u32>,
    size: u32,
    image: Vec<u8>,
    journal: Vec<u8>,
) -> Outcome
    requires keep { MayKeep keep }
    requires range { IsChangeInRange change.now }
    ensures answers { Answers (Tree change.now keep) (given size image.items journal.items) result }
    ensures failed { blames_output result.fault ≡ false }
    ensures status { result.status ≡ status_of result.fault }
{
    match Image::new(image, size) {
        Ok(image) => image_changed(alloc, change, keep, image, journal),
        Err((fault, image)) => Outcome::new(image, journal, Some(Fault::Image(fault))),
    }
}

/// Changes an image so.
fn image_changed(
    alloc: Global,
    change: &Changing<'_>,
    keep: Option<u32>,
    image: Image,
    journal: Vec<u8>,
) -> Outcome
    requires keep { MayKeep keep }
    requires range { IsChangeInRange change.now }
    requires disk { IsDisk image.disk }
    ensures answers { Answers (Tree change.now keep) (given image.disk.size image.disk.bytes journal.items) result }
    ensures failed { blames_output result.fault ≡ false }
    ensures status { result.status ≡ status_of result.fault }
{
    let size = image.size();
    let plan = plan_of(alloc, change, &image);
    let image = image.into_bytes();
    match plan {
        Ok(plan) => {
            let outcome = plan_changed(alloc, change, &plan, keep, size, image, journal);
            with_command(alloc, &plan, outcome)
        }
        Err(fault) => Outcome::new(image, journal, Some(fault)),
    }
}

/// The commands that follow from an image. What was mounted isn't given back to the allocator, since the program ends behind its change.
fn plan_of(alloc: Global, change: &Changing<'_>, image: &Image) -> Result<Vec<Planned>, Fault>
    requires { IsChangeInRange change.now }
    ensures planned { IfOk result (λ plan. IsAsked change.now image.now.disk (asked_by change.now plan.items)) }
    ensures refused { IfErr result (λ fault. (at : ℕ) (journal : List ℕ) → RefusesImage [] at image.now.disk journal fault) }
    ensures silent { IfErr result (λ fault. blames_output (Some fault) ≡ false) }
{
    let mounted = mount(alloc, image)?;
    let plan = mounted_plan(alloc, change, image, &mounted)?;
    forget(mounted);
    Ok(plan)
}

/// Those that follow from an image that is mounted.
fn mounted_plan(
    alloc: Global,
    change: &Changing<'_>,
    image: &Image,
    mounted: &Mounted,
) -> Result<Vec<Planned>, AllocError>
    requires mounted { IsMountOf image.now.disk mounted.now }
    requires range { IsChangeInRange change.now }
    ensures { IfOk result (λ plan. IsAsked change.now image.now.disk (asked_by change.now plan.items)) }
{
    match change {
        TreeChange::Remove { path } => remove_plan(alloc, mounted, path),
        TreeChange::Make { path } => make_plan(alloc, mounted, path),
        TreeChange::Put { path, .. } => put_plan(alloc, mounted, path),
        TreeChange::Sync { path, rows, .. } => sync_plan(alloc, image, mounted, path, rows),
    }
}

/// Carries the commands of a change out on the bytes of an image and its journal, with the contents that they put.
fn plan_changed(
    alloc: Global,
    change: &Changing<'_>,
    plan: &[Planned],
    keep: Option<u32>,
    size: u32,
    image: Vec<u8>,
    journal: Vec<u8>,
) -> Outcome
    requires keep { MayKeep keep }
    requires disk { IsDisk (image_of size image.items) }
    ensures answers { AnswersChange result.fault (Together (asked_by change.now plan.now) keep ∷ []) size image.items journal.items result }
    ensures failed { blames_output result.fault ≡ false }
    ensures status { result.status ≡ status_of result.fault }
{
    match change {
        TreeChange::Put { path, bytes, most } => {
            let row = SyncRow {
                path,
                bytes: Some(bytes),
            };
            let terms = Terms { keep, most: *most };
            rows_changed(alloc, plan, &[row], terms, size, image, journal)
        }
        TreeChange::Sync { rows, most, .. } => {
            let terms = Terms { keep, most: *most };
            rows_changed(alloc, plan, rows, terms, size, image, journal)
        }
        TreeChange::Remove { .. } | TreeChange::Make { .. } => {
            let terms = Terms {
                keep,
                most: MOST_HELD,
            };
            rows_changed(alloc, plan, &[], terms, size, image, journal)
        }
    }
}

/// Carries out what is planned of rows, on these terms.
fn rows_changed<'a>(
    alloc: Global,
    plan: &'a [Planned],
    rows: &'a [SyncRow<'a>],
    terms: Terms,
    size: u32,
    image: Vec<u8>,
    journal: Vec<u8>,
) -> Outcome
    requires keep { MayKeep terms.keep }
    requires disk { IsDisk (image_of size image.items) }
    ensures answers { AnswersChange result.fault (Together (map (bounded terms.most) (plan_asked rows.now plan.now)) terms.keep ∷ [])
        size image.items journal.items result }
    ensures failed { blames_output result.fault ≡ false }
    ensures status { result.status ≡ status_of result.fault }
{
    match commands_of(alloc, plan, rows, terms.most) {
        Ok(commands) => {
            let change = [Move::Together {
                commands: &commands,
                keep: terms.keep,
            }];
            changed(alloc, &change, size, image, journal)
        }
        Err(_) => Outcome::new(image, journal, Some(Fault::Refused(Refusal::Memory))),
    }
}

/// An outcome with the command of a plan that is refused in it, as far as memory isn't wanting.
fn with_command(alloc: Global, plan: &[Planned], outcome: Outcome) -> Outcome
    ensures kept { (result.image ≡ outcome.image) × (result.journal.items ≡ outcome.journal.items) }
    ensures fault { result.fault ≡ outcome.fault }
    ensures at { result.at ≡ outcome.at }
    ensures status { result.status ≡ outcome.status }
{
    let refused = match outcome.fault {
        Some(Fault::Refused(Refusal::Memory)) => None,
        Some(Fault::Refused(_)) => command_text(alloc, plan, outcome.at),
        _ => None,
    };
    outcome.with_refused(refused)
}

/// The command at a place of a plan, a verb and a path; `None` where there is none, or memory is wanting.
fn command_text(alloc: Global, plan: &[Planned], at: usize) -> Option<Vec<u8>> {
    let planned = plan.get(at)?;
    let verb: &[u8] = match planned.kind {
        PlannedKind::Removal => b"rm ",
        PlannedKind::Directory => b"mkdir ",
        PlannedKind::File(_) => b"put ",
    };
    let mut text = Vec::from_slice(alloc, verb).ok()?;
    text.extend_from_slice(&planned.text).ok()?;
    Some(text)
}
