//! Steps on the history of an image, all of which are done or none, beside a copy of the image.

ghost use Rattle.std.specs.Prelude.{◌≡◌, false, map};
ghost use Rattle.std.specs.List.{AllByRecursion};
ghost use Rattle.lfs_block.specs.Disk.{Disk};
ghost use Rattle.lfs_history.specs.Meaning.{step_of};
ghost use Rattle.lfs_history.specs.Taking.{KeepsInRange};
ghost use Rattle.lfs_change.specs.Change.{AnswersChange, AnswersImage, DenotesOn};
ghost use Rattle.lfs_request.specs.Fault.{blames_output, status_of};

use crate::opening::opened;
use crate::outcomes::{outcome_of, outcome_of_stop};
use lfs_block::Image;
use lfs_command::Refusal;
use lfs_history::Move;
use lfs_request::{Fault, Outcome};
use lfs_session::Session;
use std::alloc::Global;

/// Takes steps, as `changed` does, beside a copy of the image.
pub(crate) fn changed_beside(
    alloc: Global,
    steps: &[Move<'_>],
    size: u32,
    image: Vec<u8>,
    journal: Vec<u8>,
) -> Outcome
    requires { AllByRecursion (λ step. KeepsInRange (step_of step)) steps.now }
    ensures answers { AnswersChange result.fault (map step_of steps.now) size image.items journal.items result }
    ensures failed { blames_output result.fault ≡ false }
    ensures status { result.status ≡ status_of result.fault }
{
    let kept = Vec::from_slice(alloc, image.as_slice());
    match (Image::new(image, size), kept) {
        (Ok(image), Ok(kept)) => image_changed(alloc, steps, image, kept, journal),
        (Ok(image), Err(_)) => {
            let memory = Some(Fault::Refused(Refusal::Memory));
            Outcome::new(image.into_bytes(), journal, memory)
        }
        (Err((fault, image)), _) => Outcome::new(image, journal, Some(Fault::Image(fault))),
    }
}

/// Takes steps on the history of an image and of its journal, all of them or none.
fn image_changed(
    alloc: Global,
    steps: &[Move<'_>],
    image: Image,
    kept: Vec<u8>,
    journal: Vec<u8>,
) -> Outcome
    requires range { AllByRecursion (λ step. KeepsInRange (step_of step)) steps.now }
    requires kept { kept.items ≡ image.disk.bytes }
    ensures answers { AnswersImage result.fault (map step_of steps.now) image.disk journal.items result }
    ensures failed { blames_output result.fault ≡ false }
    ensures status { result.status ≡ status_of result.fault }
{
    match opened(alloc, image, &journal) {
        Ok(session) => session_changed(alloc, steps, session, kept, journal),
        Err(refused) => Outcome::new(kept, journal, Some(Fault::from(refused.fault))),
    }
}

/// Takes steps on the history of an image and of its journal, all of them or none, as it is open.
fn session_changed(
    alloc: Global,
    steps: &[Move<'_>],
    session: Session,
    kept: Vec<u8>,
    journal: Vec<u8>,
) -> Outcome
    requires { AllByRecursion (λ step. KeepsInRange (step_of step)) steps.now }
    ensures answers { (disk : Disk) → kept.items ≡ disk.bytes → DenotesOn disk journal.items session
        → AnswersImage result.fault (map step_of steps.now) disk journal.items result }
    ensures failed { blames_output result.fault ≡ false }
    ensures status { result.status ≡ status_of result.fault }
{
    let mut session = session;
    match session.take_all(alloc, steps) {
        Ok(()) => outcome_of(session),
        Err(stopped) => outcome_of_stop(kept, journal, stopped, None),
    }
}
