//! Steps on the history of an image, all of which are done or none, in the image that is handed in.

ghost use Rattle.std.specs.Prelude.{◌≡◌, ◌≤◌, ℕ, List, false, length, map, IfErr, OnErr, OnOk};
ghost use Rattle.std.specs.List.{AllByRecursion};
ghost use Rattle.lfs_block.specs.Disk.{Disk};
ghost use Rattle.lfs_history.specs.Batch.{TakesAll};
ghost use Rattle.lfs_history.specs.Meaning.{step_of};
ghost use Rattle.lfs_history.specs.Moves.{Repeats, Undoes};
ghost use Rattle.lfs_history.specs.Taking.{KeepsInRange};
ghost use Rattle.lfs_change.specs.Change.{AnswersChange, AnswersImage, DenotesOn, RefusesImage, place_of};
ghost use Rattle.lfs_request.specs.Fault.{blames_output, fault_of_step, status_of};
ghost use Rattle.lfs_change.specs.KeptPast.{AllButLast};

use crate::opening::opened;
use crate::outcomes::{image_bytes, outcome_of, outcome_of_stop};
use lfs_block::Image;
use lfs_history::Move;
use lfs_request::{Fault, Outcome, Place};
use lfs_session::{Refused, Session, Stopped};
use std::alloc::Global;

/// Takes steps, as `changed` does, in the image that is handed in.
pub(crate) fn changed_in_place(
    alloc: Global,
    steps: &[Move<'_>],
    size: u32,
    image: Vec<u8>,
    journal: Vec<u8>,
) -> Outcome
    requires range { AllByRecursion (λ step. KeepsInRange (step_of step)) steps.now }
    requires fronts { AllButLast (map step_of steps.now) }
    ensures answers { AnswersChange result.fault (map step_of steps.now) size image.items journal.items result }
    ensures failed { blames_output result.fault ≡ false }
    ensures status { result.status ≡ status_of result.fault }
{
    match Image::new(image, size) {
        Ok(image) => image_changed(alloc, steps, image, journal),
        Err((fault, image)) => Outcome::new(image, journal, Some(Fault::Image(fault))),
    }
}

/// Takes such steps on the history of an image and of its journal, all of them or none.
fn image_changed(alloc: Global, steps: &[Move<'_>], image: Image, journal: Vec<u8>) -> Outcome
    requires range { AllByRecursion (λ step. KeepsInRange (step_of step)) steps.now }
    requires fronts { AllButLast (map step_of steps.now) }
    ensures answers { AnswersImage result.fault (map step_of steps.now) image.disk journal.items result }
    ensures failed { blames_output result.fault ≡ false }
    ensures status { result.status ≡ status_of result.fault }
{
    match opened(alloc, image, &journal) {
        Ok(session) => session_changed(alloc, steps, session, journal),
        Err(Refused { fault, image }) => {
            Outcome::new(image.into_bytes(), journal, Some(Fault::from(fault)))
        }
    }
}

/// Takes such steps on the history of an image and of its journal, all of them or none, as it is open.
fn session_changed(alloc: Global, steps: &[Move<'_>], session: Session, journal: Vec<u8>) -> Outcome
    requires range { AllByRecursion (λ step. KeepsInRange (step_of step)) steps.now }
    requires fronts { AllButLast (map step_of steps.now) }
    ensures answers { (disk : Disk) → DenotesOn disk journal.items session → AnswersImage result.fault (map step_of steps.now) disk journal.items result }
    ensures failed { blames_output result.fault ≡ false }
    ensures status { result.status ≡ status_of result.fault }
{
    let mut session = session;
    match taken_in(alloc, steps, &mut session) {
        Ok(()) => outcome_of(session),
        Err(stopped) => {
            let place = path_place(alloc, steps, &session);
            outcome_of_stop(image_bytes(session), journal, stopped, place)
        }
    }
}

/// Where on its path the first of some steps is refused; behind others that were taken back the session knows no outline, and so no place.
fn path_place(alloc: Global, steps: &[Move<'_>], session: &Session) -> Option<Place> {
    let Move::Do { command, .. } = steps.first()? else {
        return None;
    };
    Place::of(
        alloc,
        session.outline()?,
        command.path()?,
        command.target().copied(),
    )
}

/// Takes such steps: where one is refused, those before it are taken back, so that the image is as it was.
fn taken_in(alloc: Global, steps: &[Move<'_>], session: &mut Session) -> Result<(), Stopped>
    requires range { AllByRecursion (λ step. KeepsInRange (step_of step)) steps.now }
    requires fronts { AllButLast (map step_of steps.now) }
    ensures takes { OnOk result (TakesAll (map step_of steps.now) session.old session.new) }
    ensures refused { IfErr result (λ stopped. (disk : Disk) → (journal : List ℕ) → DenotesOn disk journal session.old
        → RefusesImage (map step_of steps.now) (place_of stopped.at stopped.fault) disk journal (fault_of_step stopped.fault)) }
    ensures unchanged { OnErr result (session.new.present ≡ session.old.present) }
{
    if let Err(stopped) = session.take_all(alloc, steps) {
        take_back_all(session, stopped.at);
        return Err(stopped);
    }
    Ok(())
}

/// Takes the latest changes back, so many of them.
fn take_back_all(session: &mut Session, many: usize)
    requires { many ≤ length session.old.past }
    ensures { Repeats Undoes many session.old session.new }
{
    for _ in 0..many {
        let _ = session.undo();
    }
}
