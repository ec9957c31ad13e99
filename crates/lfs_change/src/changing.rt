//! Steps on the history of an image, all of which are done or none.

ghost use Rattle.std.specs.Prelude.{◌≡◌, false, map};
ghost use Rattle.std.specs.List.{AllByRecursion};
ghost use Rattle.lfs_history.specs.Meaning.{step_of};
ghost use Rattle.lfs_history.specs.Taking.{KeepsInRange};
ghost use Rattle.lfs_change.specs.Change.{AnswersChange};
ghost use Rattle.lfs_request.specs.Fault.{blames_output, status_of};

use crate::beside::changed_beside;
use crate::in_place::changed_in_place;
use crate::kept_past::fronts_keep_past;
use lfs_history::Move;
use lfs_request::Outcome;
use std::alloc::Global;

/// Takes steps, one after another, on the history of bytes that are an image, with blocks of `size` bytes, and of its journal: all of
/// them or none. The journal is spelled in version 2 then, whichever version it was read in. With a fault the image and the journal are
/// those that were handed in, and where a step is refused the outcome says how many are done before it. Takes memory, for a copy of the
/// image too where a step before the last is anything else than a command that keeps all earlier images.
pub fn changed(
    alloc: Global,
    steps: &[Move<'_>],
    size: u32,
    image: Vec<u8>,
    journal: Vec<u8>,
) -> Outcome
    requires { AllByRecursion (λ step. KeepsInRange (step_of step)) steps.now }
    ensures answers { AnswersChange result.fault (map step_of steps.now) size image.items journal.items result }
    ensures failed { blames_output result.fault ≡ false }
    ensures status { result.status ≡ status_of result.fault }
{
    if fronts_keep_past(steps) {
        changed_in_place(alloc, steps, size, image, journal)
    } else {
        changed_beside(alloc, steps, size, image, journal)
    }
}
