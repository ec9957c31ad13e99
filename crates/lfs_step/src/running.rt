//! One step on an image.

ghost use Rattle.std.specs.Prelude.{◌≡◌, List, [], false, IfOk, IfErr};
ghost use Rattle.lfs_block.specs.Geometry.{IsGeometry};
ghost use Rattle.lfs_journal.specs.Book.{book_of, journal_bytes};
ghost use Rattle.lfs_command.specs.declared.refusal.Refusal.TheVariants.{Memory};
ghost use Rattle.lfs_fs.specs.Superblock.{IsLimits};
ghost use Rattle.lfs_edit.specs.Formatted.{IsFormatted};
ghost use Rattle.lfs_request.specs.Fault.{blames_output, status_of};
ghost use Rattle.lfs_request.specs.declared.fault.Fault.TheVariants.{Refused};
ghost use Rattle.lfs_step.specs.Equations.{KeepsEquations, KeepsNeeds};
ghost use Rattle.lfs_step.specs.Histories.{KeepsHistories};
ghost use Rattle.lfs_step.specs.Outcome.{Answers, RefusesFormat, RefusesPacking, SendsText, given};
ghost use Rattle.lfs_pack.specs.Packed.{AreRowsOf, Packed};
ghost use Rattle.lfs_pack.specs.Packing.{IsPacked};
ghost use Rattle.lfs_step.specs.Step.{IsStepInRange};
ghost use Rattle.lfs_step.specs.declared.step.Step.TheVariants.{Format, Pack};

use crate::adopting::taken_over;
use crate::laws::steps_leave_histories;
use crate::querying::queried;
use crate::step::Step;
use crate::tree_changing::tree_changed;
use lfs_block::{ImageFault, geometry_ok};
use lfs_change::{
    bytes_are_changed_together, changed, changed_bytes_are_equations, forgotten,
    journals_of_bytes_grow_by_the_need,
};
use lfs_command::Refusal;
use lfs_edit::format_within;
use lfs_fs::Limits;
use lfs_journal::write_journal;
use lfs_pack::{PackRow, pack_within};
use lfs_request::{Fault, Outcome};
use lfs_sink::Sink;
use std::alloc::Global;

/// Takes one step on an image and its journal, with blocks of `size` bytes. What it says goes to `out`, and the caller owes that this has
/// not failed. With a fault the image and the journal are those that were handed in, and nothing goes out but where `out` itself failed.
/// An empty journal is that of an image that nothing was done to.
///
/// A step that changes the image is a list of steps on the history that image and journal denote, all of which are done or none; it
/// answers those of the history that these leave, and the outcome says at which of them it is refused. A new image gets a journal without
/// changes. What is asked leaves both files as they are; of such steps only the recount of changes reads the journal. New images read
/// none, and forgetting none either. An image that is taken over gets a journal without changes if a block of it changes.
///
/// Where the step makes a new image the caller owes limits that an image may have; and where it keeps a number of images of the past
/// behind a command, that this is 1 to 1,000.
///
/// A step that is done leaves an image and a journal that denote the history to which it leads; a command, an image that mounts to the
/// command's equation, and a journal that has grown by no more than the command's need; so do commands that are one change, with their
/// equations one after another, and their needs together. Takes memory.
pub fn run<S: Sink>(
    alloc: Global,
    step: Step<'_>,
    size: u32,
    image: Vec<u8>,
    journal: Vec<u8>,
    out: &mut S,
) -> Outcome
    requires works { S.failed out.old ≡ false }
    requires range { IsStepInRange step }
    ensures answers { Answers step.entry (given size image.items journal.items) result }
    ensures history { KeepsHistories step.entry (given size image.items journal.items) result }
    ensures equation { KeepsEquations step.entry (given size image.items journal.items) result }
    ensures growth { KeepsNeeds step.entry (given size image.items journal.items) result }
    ensures sent { SendsText step.entry (given size image.items journal.items) result (S.sent out.old) (S.sent out.new) }
    ensures failed { S.failed out.new ≡ blames_output result.fault }
    ensures kept { S.kept out.new ≡ S.kept out.old }
    ensures status { result.status ≡ status_of result.fault }
{
    bytes_are_changed_together();
    changed_bytes_are_equations();
    journals_of_bytes_grow_by_the_need();
    steps_leave_histories();
    taken(alloc, step, size, image, journal, out)
}

/// Takes a step.
fn taken<S: Sink>(
    alloc: Global,
    step: Step<'_>,
    size: u32,
    image: Vec<u8>,
    journal: Vec<u8>,
    out: &mut S,
) -> Outcome
    requires works { S.failed out.old ≡ false }
    requires range { IsStepInRange step }
    ensures answers { Answers step.entry (given size image.items journal.items) result }
    ensures sent { SendsText step.entry (given size image.items journal.items) result (S.sent out.old) (S.sent out.new) }
    ensures failed { S.failed out.new ≡ blames_output result.fault }
    ensures kept { S.kept out.new ≡ S.kept out.old }
    ensures status { result.status ≡ status_of result.fault }
{
    match step {
        Step::Format { count, limits } => formatted(alloc, size, count, limits, image, journal),
        Step::Pack {
            count,
            limits,
            rows,
        } => packed(alloc, size, count, limits, rows, image, journal),
        Step::Ask { query, form } => queried(alloc, query, form, size, image, journal, out),
        Step::Forget => forgotten(alloc, size, image, journal),
        Step::Adopt { form, replaces } => {
            taken_over(alloc, form, replaces, size, image, journal, out)
        }
        Step::Change(steps) => changed(alloc, steps, size, image, journal),
        Step::Tree { change, keep } => tree_changed(alloc, &change, keep, size, image, journal),
    }
}

/// A new image, with a journal without changes.
fn formatted(
    alloc: Global,
    size: u32,
    count: u32,
    limits: Limits,
    image: Vec<u8>,
    journal: Vec<u8>,
) -> Outcome
    requires { IsLimits limits }
    ensures answers { Answers (Format count limits) (given size image.items journal.items) result }
    ensures failed { blames_output result.fault ≡ false }
    ensures status { result.status ≡ status_of result.fault }
{
    match new_image(alloc, size, count, limits) {
        Ok((new, empty)) => Outcome::new(new, empty, None),
        Err(fault) => Outcome::new(image, journal, Some(fault)),
    }
}

/// The bytes of a journal without changes.
fn empty_journal(alloc: Global, size: u32, count: u32) -> Result<Vec<u8>, Fault>
    requires { IsGeometry size count }
    ensures empty { IfOk result (λ bytes. bytes.items ≡ journal_bytes (book_of size count [] 0)) }
    ensures refused { IfErr result (λ fault. fault ≡ Refused Memory) }
{
    write_journal(alloc, size, count, &[], 0).ok_or(Fault::Refused(Refusal::Memory))
}

/// The bytes of a new image, and of a journal without changes.
fn new_image(
    alloc: Global,
    size: u32,
    count: u32,
    limits: Limits,
) -> Result<(Vec<u8>, Vec<u8>), Fault>
    requires { IsLimits limits }
    ensures made { IfOk result (λ new. IsFormatted size count limits new.0.items) }
    ensures empty { IfOk result (λ new. new.1.items ≡ journal_bytes (book_of size count [] 0)) }
    ensures refused { IfErr result (λ fault. RefusesFormat size count fault) }
{
    if !geometry_ok(size, count) {
        return Err(Fault::Image(ImageFault::BadGeometry));
    }
    let journal = empty_journal(alloc, size, count)?;
    Ok((format_within(alloc, size, count, limits)?, journal))
}

/// A new image of rows, with a journal without changes.
fn packed(
    alloc: Global,
    size: u32,
    count: u32,
    limits: Limits,
    rows: &[PackRow<'_>],
    image: Vec<u8>,
    journal: Vec<u8>,
) -> Outcome
    requires { IsLimits limits }
    ensures answers { Answers (Pack count limits rows.entry) (given size image.items journal.items) result }
    ensures failed { blames_output result.fault ≡ false }
    ensures status { result.status ≡ status_of result.fault }
{
    let mut at = 0;
    match packed_image(alloc, size, count, limits, rows, &mut at) {
        Ok((filled, empty)) => Outcome::new(filled, empty, None),
        Err(refused) => Outcome::placed(image, journal, Some(refused), at, None),
    }
}

/// The bytes of a new image of rows, and of a journal without changes; `at` is left at the row that is refused.
fn packed_image(
    alloc: Global,
    size: u32,
    count: u32,
    limits: Limits,
    rows: &[PackRow<'_>],
    at: &mut usize,
) -> Result<(Vec<u8>, Vec<u8>), Fault>
    requires { IsLimits limits }
    ensures made { IfOk result (λ new. (packed : List Packed) → AreRowsOf rows.now packed → IsPacked size count limits packed new.0.items) }
    ensures empty { IfOk result (λ new. new.1.items ≡ journal_bytes (book_of size count [] 0)) }
    ensures refused { IfErr result (λ fault. RefusesPacking size count limits rows.now fault) }
{
    if !geometry_ok(size, count) {
        return Err(Fault::Image(ImageFault::BadGeometry));
    }
    let journal = empty_journal(alloc, size, count)?;
    let bytes = pack_within(alloc, size, count, limits, rows, at)?;
    Ok((bytes, journal))
}
