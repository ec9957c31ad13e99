//! Why a run ends early, and what is told of it.

use crate::stated::Statement;
use lfs_request::Fault;
use std::alloc::{AllocError, AllocFailed};

/// Why a run ends without having done what it was asked for, with what is told of it beside.
#[derive(Clone, Copy)]
pub struct Stop {
    /// The fault.
    pub fault: Fault,
    /// What more is known of it.
    pub statement: Option<Statement>,
    /// How many blocks the image has or would get.
    pub count: Option<usize>,
    /// How many of several steps, or rows, could have been done before the one that is refused; 0 else.
    pub at: usize,
}

impl Stop {
    ghost use Rattle.std.specs.Prelude.{◌≡◌};

    /// The same with another statement.
    pub fn with(self, statement: Option<Statement>) -> Stop
        ensures fault { result.fault ≡ self.fault }
        ensures statement { result.statement ≡ statement }
    {
        Stop {
            fault: self.fault,
            statement,
            count: self.count,
            at: self.at,
        }
    }
}

impl From<Fault> for Stop {
    ghost use Rattle.std.specs.Prelude.{◌≡◌};

    ghost from_gives = { λ fault stop. stop.fault ≡ fault };

    fn from(fault: Fault) -> Stop {
        Stop {
            fault,
            statement: None,
            count: None,
            at: 0,
        }
    }
}

impl From<AllocError> for Stop {
    ghost use Rattle.std.specs.Prelude.{◌≡◌};
    ghost use Rattle.lfs_command.specs.declared.refusal.Refusal.TheVariants.{Memory};
    ghost use Rattle.lfs_request.specs.declared.fault.Fault.TheVariants.{Refused};

    ghost from_gives = { λ error stop. stop.fault ≡ Refused Memory };

    fn from(error: AllocError) -> Stop {
        Stop::from(Fault::from(error))
    }
}

impl<T: Drop> From<AllocFailed<T>> for Stop {
    ghost use Rattle.std.specs.Prelude.{◌≡◌};
    ghost use Rattle.lfs_command.specs.declared.refusal.Refusal.TheVariants.{Memory};
    ghost use Rattle.lfs_request.specs.declared.fault.Fault.TheVariants.{Refused};

    ghost from_gives = { λ failed stop. stop.fault ≡ Refused Memory };

    fn from(failed: AllocFailed<T>) -> Stop {
        Stop::from(AllocError::from(failed))
    }
}
