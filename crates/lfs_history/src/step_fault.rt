//! Why a step is refused.

use lfs_command::Refusal;
use std::alloc::AllocError;
use std::fmt;
use thiserror::Error;

/// Why a step of a session is refused.
#[derive(Clone, Copy, Debug, PartialEq, Eq, Error)]
pub enum StepFault {
    /// The command is refused, or a growth of memory was.
    Refused(Refusal),
    /// Of several commands that are to be one change, this one is refused, or a growth of memory was at it.
    RefusedAt {
        /// How many commands stand before it.
        at: usize,
        /// Why it is refused.
        refusal: Refusal,
    },
    /// Fewer changes are there to be taken back than were to be.
    NothingToUndo,
    /// Fewer changes were taken back since the last that was made than were to be made again.
    NothingToRedo,
    /// As many changes were made as a session keeps.
    JournalFull,
}

impl StepFault {
    ghost use Rattle.std.specs.Prelude.{◌≡◌};
    ghost use Rattle.lfs_history.specs.Faults.{step_fault_number};

    /// The fault's number: that of the refusal, or 53 to 55.
    pub fn number(self) -> u8
        ensures { result ≡ step_fault_number self }
    {
        match self {
            StepFault::Refused(refusal) | StepFault::RefusedAt { refusal, .. } => refusal.number(),
            StepFault::NothingToUndo => 53,
            StepFault::NothingToRedo => 54,
            StepFault::JournalFull => 55,
        }
    }

    /// The fault's name, as the program prints it.
    pub fn name(self) -> &'static str {
        match self {
            StepFault::Refused(refusal) | StepFault::RefusedAt { refusal, .. } => refusal.name(),
            StepFault::NothingToUndo => "NothingToUndo",
            StepFault::NothingToRedo => "NothingToRedo",
            StepFault::JournalFull => "JournalFull",
        }
    }
}

impl fmt::Display for StepFault {
    fn fmt<W: fmt::Write>(&self, f: &mut fmt::Formatter<W>) -> fmt::Result {
        match self {
            StepFault::Refused(refusal) | StepFault::RefusedAt { refusal, .. } => refusal.fmt(f),
            fault => f.write_str(fault.name()),
        }
    }
}

impl From<Refusal> for StepFault {
    ghost use Rattle.std.specs.Prelude.{◌≡◌};
    ghost use Rattle.lfs_history.specs.declared.step_fault.StepFault.TheVariants.{Refused};

    ghost from_gives = { λ refusal fault. fault ≡ Refused refusal };

    fn from(refusal: Refusal) -> StepFault {
        StepFault::Refused(refusal)
    }
}

impl From<AllocError> for StepFault {
    ghost use Rattle.std.specs.Prelude.{◌≡◌};
    ghost use Rattle.lfs_command.specs.declared.refusal.Refusal.TheVariants.{Memory};
    ghost use Rattle.lfs_history.specs.declared.step_fault.StepFault.TheVariants.{Refused};

    ghost from_gives = { λ error fault. fault ≡ Refused Memory };

    fn from(_error: AllocError) -> StepFault {
        StepFault::Refused(Refusal::Memory)
    }
}
