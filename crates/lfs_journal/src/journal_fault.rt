//! Why bytes are no journal.

use std::alloc::{AllocError, AllocFailed};
use std::fmt;
use thiserror::Error;

/// Why bytes are not read as a journal.
#[derive(Clone, Copy, Debug, PartialEq, Eq, Error)]
pub enum JournalFault {
    /// The bytes are no journal.
    JournalFormat,
    /// A growth of memory was refused.
    Memory,
}

impl JournalFault {
    ghost use Rattle.std.specs.Prelude.{◌≡◌};
    ghost use Rattle.lfs_journal.specs.Faults.{journal_fault_number};

    /// The fault's number: 50, and 44 for `Memory`.
    pub fn number(self) -> u8
        ensures { result ≡ journal_fault_number self }
    {
        match self {
            JournalFault::JournalFormat => 50,
            JournalFault::Memory => 44,
        }
    }

    /// The fault's name, as the program prints it.
    pub fn name(self) -> &'static str {
        match self {
            JournalFault::JournalFormat => "JournalFormat",
            JournalFault::Memory => "Memory",
        }
    }
}

impl fmt::Display for JournalFault {
    fn fmt<W: fmt::Write>(&self, f: &mut fmt::Formatter<W>) -> fmt::Result {
        f.write_str(self.name())
    }
}

impl From<AllocError> for JournalFault {
    ghost use Rattle.std.specs.Prelude.{◌≡◌};
    ghost use Rattle.lfs_journal.specs.declared.journal_fault.JournalFault.TheVariants.{Memory};

    ghost from_gives = { λ error fault. fault ≡ Memory };

    fn from(_error: AllocError) -> JournalFault {
        JournalFault::Memory
    }
}

impl<T: Drop> From<AllocFailed<T>> for JournalFault {
    ghost use Rattle.std.specs.Prelude.{◌≡◌};
    ghost use Rattle.lfs_journal.specs.declared.journal_fault.JournalFault.TheVariants.{Memory};

    ghost from_gives = { λ failed fault. fault ≡ Memory };

    fn from(_failed: AllocFailed<T>) -> JournalFault {
        JournalFault::Memory
    }
}
