//! The outcomes of sessions.

ghost use Rattle.std.specs.Prelude.{◌≡◌, None, Some, false};
ghost use Rattle.lfs_journal.specs.Book.{journal_bytes};
ghost use Rattle.lfs_history.specs.Opening.{journal_of};
ghost use Rattle.lfs_change.specs.Change.{place_of};
ghost use Rattle.lfs_request.specs.Fault.{blames_output, fault_of_step, status_of};

use lfs_history::StepFault;
use lfs_request::{Fault, Outcome, Place};
use lfs_session::{Session, Stopped};

/// The bytes of a session's image.
pub(crate) fn image_bytes(session: Session) -> Vec<u8>
    ensures { result.items ≡ session.present.bytes }
{
    let (image, _) = session.into_parts();
    image.into_bytes()
}

/// The outcome that keeps a session's image and its journal.
pub(crate) fn outcome_of(session: Session) -> Outcome
    ensures image { result.image.items ≡ session.present.bytes }
    ensures journal { result.journal.items ≡ journal_bytes (journal_of session) }
    ensures fault { result.fault ≡ None }
    ensures status { result.status ≡ 0 }
{
    let (image, journal) = session.into_parts();
    Outcome::done(image.into_bytes(), journal)
}

/// How many could be done before what is refused: of the steps, or of the commands that are the one that is refused.
fn place_of(stopped: Stopped) -> usize
    ensures { result ≡ place_of stopped.at stopped.fault }
{
    match stopped.fault {
        StepFault::RefusedAt { at, .. } => at,
        _ => stopped.at,
    }
}

/// The outcome of several steps that aren't done, with the bytes that were handed in.
pub(crate) fn outcome_of_stop(
    image: Vec<u8>,
    journal: Vec<u8>,
    stopped: Stopped,
    place: Option<Place>,
) -> Outcome
    ensures kept { (result.image ≡ image) × (result.journal.items ≡ journal.items) }
    ensures fault { result.fault ≡ Some (fault_of_step stopped.fault) }
    ensures at { result.at ≡ place_of stopped.at stopped.fault }
    ensures failed { blames_output result.fault ≡ false }
    ensures status { result.status ≡ status_of result.fault }
{
    let fault = Some(Fault::from(stopped.fault));
    Outcome::placed(image, journal, fault, place_of(stopped), place)
}
