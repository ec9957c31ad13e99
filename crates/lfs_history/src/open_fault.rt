//! Why a journal is not opened on an image.

use lfs_block::MountFault;
use lfs_journal::JournalFault;
use std::fmt;
use thiserror::Error;

/// Why a journal is not opened on an image. Want of memory is `Mount(MountFault::Memory)`.
#[derive(Clone, Copy, Debug, PartialEq, Eq, Error)]
pub enum OpenFault {
    /// The image does not mount, or a growth of memory was refused.
    Mount(MountFault),
    /// The bytes spell no journal.
    JournalFormat,
    /// The journal denotes no history of the image.
    JournalMismatch,
    /// Another image of the history does not mount.
    JournalImage,
}

impl OpenFault {
    ghost use Rattle.std.specs.Prelude.{◌≡◌};
    ghost use Rattle.lfs_history.specs.Faults.{open_fault_number};

    /// The fault's number: that of the mount's fault, or 50 to 52.
    pub fn number(self) -> u8
        ensures { result ≡ open_fault_number self }
    {
        match self {
            OpenFault::Mount(fault) => fault.number(),
            OpenFault::JournalFormat => 50,
            OpenFault::JournalMismatch => 51,
            OpenFault::JournalImage => 52,
        }
    }

    /// The fault's name, as the program prints it.
    pub fn name(self) -> &'static str {
        match self {
            OpenFault::Mount(fault) => fault.name(),
            OpenFault::JournalFormat => "JournalFormat",
            OpenFault::JournalMismatch => "JournalMismatch",
            OpenFault::JournalImage => "JournalImage",
        }
    }
}

impl fmt::Display for OpenFault {
    fn fmt<W: fmt::Write>(&self, f: &mut fmt::Formatter<W>) -> fmt::Result {
        f.write_str(self.name())
    }
}

impl From<MountFault> for OpenFault {
    ghost use Rattle.std.specs.Prelude.{◌≡◌};
    ghost use Rattle.lfs_history.specs.declared.open_fault.OpenFault.TheVariants.{Mount};

    ghost from_gives = { λ cause fault. fault ≡ Mount cause };

    fn from(cause: MountFault) -> OpenFault {
        OpenFault::Mount(cause)
    }
}

impl From<JournalFault> for OpenFault {
    ghost use Rattle.std.specs.Prelude.{◌≡◌};
    ghost use Rattle.lfs_history.specs.Faults.{opened_fault};

    ghost from_gives = { λ cause fault. fault ≡ opened_fault cause };

    fn from(cause: JournalFault) -> OpenFault {
        match cause {
            JournalFault::JournalFormat => OpenFault::JournalFormat,
            JournalFault::Memory => OpenFault::Mount(MountFault::Memory),
        }
    }
}
