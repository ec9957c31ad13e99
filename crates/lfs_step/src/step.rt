//! What is done with an image and its journal.

ghost use Rattle.std.specs.Prelude.{◌≡◌};
ghost use Rattle.std.specs.List.{list_all};
ghost use Rattle.lfs_history.specs.Meaning.{step_of};
ghost use Rattle.lfs_step.specs.Step.{carries_nothing_out, may_take_older};

use lfs_fs::Limits;
use lfs_history::Move;
use lfs_json::Form;
use lfs_pack::PackRow;
use lfs_request::{Query, TreeChange};
use lfs_sync::SyncRow;

/// What is done with an image and its journal, with all bytes in hand that it takes.
#[derive(Drop)]
pub enum Step<'a> {
    /// Makes a new image of this many blocks with these limits.
    Format {
        /// The number of blocks.
        count: u32,
        /// The greatest lengths of a name, a file and an attribute.
        limits: Limits,
    },
    /// Makes a new image of this many blocks with these limits, with what the rows have at their paths.
    Pack {
        /// The number of blocks.
        count: u32,
        /// The greatest lengths of a name, a file and an attribute.
        limits: Limits,
        /// The rows, in the order of their paths.
        rows: &'a [PackRow<'a>],
    },
    /// Asks something of them.
    Ask {
        /// The question.
        query: Query<'a, Vec<u8>>,
        /// The form of what is answered, but for the contents of a file.
        form: Form,
    },
    /// Keeps the image, and no change that led to it or was taken back.
    Forget,
    /// Takes the image over as a device left it.
    Adopt {
        /// The form in which the blocks are answered that change.
        form: Form,
        /// Whether a journal with changes is replaced, which is refused else.
        replaces: bool,
    },
    /// Changes the image, or what is kept of its changes: steps on its history, one after another, all of them or none.
    Change(&'a [Move<'a>]),
    /// Changes the image by commands that follow from it, as one change.
    Tree {
        /// The change.
        change: TreeChange<'a, &'a [u8], &'a [SyncRow<'a>]>,
        /// How many images of the past are kept behind it, 1 to 1,000; all of them for `None`.
        keep: Option<u32>,
    },
}

/// Whether a move leads along a history, or keeps its image alone.
fn carries_nothing_out(step: &Move<'_>) -> bool
    ensures { result ≡ carries_nothing_out (step_of step.now) }
{
    matches!(step, Move::Undo { .. } | Move::Redo { .. } | Move::Forget)
}

/// Whether none of several moves carries a command out.
fn carry_nothing_out(steps: &[Move<'_>]) -> bool
    ensures { result ≡ list_all (λ step. carries_nothing_out (step_of step)) steps.now }
{
    steps.iter().all(|step| carries_nothing_out(step))
}

impl Step<'_> {
    /// Whether the state before commits of a later disk version may be taken for the image: no command is carried out on it, which would
    /// drop what a device wrote.
    pub fn may_take_older(&self) -> bool
        ensures { result ≡ may_take_older self.now }
    {
        match self {
            Step::Change(steps) => carry_nothing_out(steps),
            Step::Tree { .. } => false,
            _ => true,
        }
    }
}
