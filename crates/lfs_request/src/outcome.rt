//! What a run answers.

use crate::fault::Fault;
use crate::kept_journal::KeptJournal;
use crate::place::Place;
use lfs_journal::Journal;

/// What a run answers: the image and the journal to be kept, why nothing was done where there is a reason, at which of several steps
/// that is, and the status to end with.
#[derive(Drop)]
pub struct Outcome {
    /// The image's bytes.
    pub image: Vec<u8>,
    /// The journal's bytes; none stand for a journal without changes.
    pub journal: KeptJournal,
    /// Why nothing was done.
    pub fault: Option<Fault>,
    /// How many of several steps, or rows, could have been done before the one that is refused; 0 else.
    pub at: usize,
    /// Where on its path the step is refused, as far as that is known.
    pub place: Option<Place>,
    /// The command that is refused, a verb and a path, where it is one of those that follow from the image.
    pub refused: Option<Vec<u8>>,
    /// The status that the program ends with.
    pub status: u8,
}

impl Outcome {
    ghost use Rattle.std.specs.Prelude.{◌≡◌, None};
    ghost use Rattle.lfs_journal.specs.Book.{journal_bytes};
    ghost use Rattle.lfs_request.specs.Fault.{status_of};

    /// The outcome with this fault, if any, and its status.
    pub fn new(image: Vec<u8>, journal: Vec<u8>, fault: Option<Fault>) -> Outcome
        ensures kept { (result.image ≡ image) × (result.journal.items ≡ journal.items) }
        ensures fault { result.fault ≡ fault }
        ensures status { result.status ≡ status_of fault }
    {
        Outcome::placed(image, journal, fault, 0, None)
    }

    /// The outcome with this fault, if any, which is met behind so many steps or rows, at a place of its path where that is known.
    pub fn placed(
        image: Vec<u8>,
        journal: Vec<u8>,
        fault: Option<Fault>,
        at: usize,
        place: Option<Place>,
    ) -> Outcome
        ensures kept { (result.image ≡ image) × (result.journal.items ≡ journal.items) }
        ensures fault { result.fault ≡ fault }
        ensures at { result.at ≡ at }
        ensures status { result.status ≡ status_of fault }
    {
        let status = match fault {
            None => 0,
            Some(fault) => fault.status(),
        };
        Outcome {
            image,
            journal: KeptJournal::given(journal),
            fault,
            at,
            place,
            refused: None,
            status,
        }
    }

    /// The outcome that keeps an image and a journal, with nothing refused.
    pub fn done(image: Vec<u8>, journal: Journal) -> Outcome
        ensures kept { (result.image ≡ image) × (result.journal.items ≡ journal_bytes journal) }
        ensures fault { result.fault ≡ None }
        ensures status { result.status ≡ 0 }
    {
        Outcome {
            image,
            journal: KeptJournal::spelled(journal),
            fault: None,
            at: 0,
            place: None,
            refused: None,
            status: 0,
        }
    }
    /// The same, with the command that is refused.
    pub fn with_refused(self, refused: Option<Vec<u8>>) -> Outcome
        ensures kept { (result.image ≡ self.image) × (result.journal.items ≡ self.journal.items) }
        ensures fault { result.fault ≡ self.fault }
        ensures at { result.at ≡ self.at }
        ensures status { result.status ≡ self.status }
    {
        let Outcome {
            image,
            journal,
            fault,
            at,
            place,
            status,
            ..
        } = self;
        Outcome {
            image,
            journal,
            fault,
            at,
            place,
            refused,
            status,
        }
    }
}
