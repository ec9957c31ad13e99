//! Why the program ends without having done what it was asked for.

use crate::other_fault::OtherFault;
use lfs_block::{ImageFault, MountFault};
use lfs_command::Refusal;
use lfs_history::{OpenFault, StepFault};
use std::alloc::AllocError;
use std::fmt;
use thiserror::Error;

/// Why the program ends without having done what it was asked for.
#[derive(Clone, Copy, Debug, PartialEq, Eq, Error)]
pub enum Fault {
    /// The bytes are no image.
    Image(ImageFault),
    /// The image does not mount.
    Mount(MountFault),
    /// The image mounts, but in an older state, since a later commit is damaged.
    DamagedCommit,
    /// The change is refused, or a growth of memory was.
    Refused(Refusal),
    /// The step is refused for what was done before it.
    Step(StepFault),
    /// The bytes are no journal.
    JournalFormat,
    /// The journal denotes no history of the image.
    JournalMismatch,
    /// Another image of the journal's history does not mount.
    JournalImage,
    /// The journal has changes, and would be replaced.
    JournalHasChanges,
    /// A file or a folder could not be read.
    CannotRead,
    /// A file or standard output could not be written.
    CannotWrite,
    /// Something below a folder is neither a regular file nor a folder.
    HostEntry,
    /// A name below a folder can't be one in an image.
    HostName,
    /// An argument is not made of as many hexadecimal digits as it takes.
    BadHex,
    /// A line of a script says no step.
    BadLine,
    /// The image that another is compared with is refused.
    Other(OtherFault),
    /// Two images that are compared differ, or files that stand in their entries are longer than was asked; nothing else is told of it.
    Differ,
}

impl Fault {
    ghost use Rattle.std.specs.Prelude.{◌≡◌};
    ghost use Rattle.lfs_request.specs.Fault.{fault_number, status_of_number};

    /// The fault's number.
    pub fn number(self) -> u8
        ensures { result ≡ fault_number self }
    {
        match self {
            Fault::Image(fault) => fault.number(),
            Fault::Mount(fault) => fault.number(),
            Fault::DamagedCommit => 22,
            Fault::Refused(refusal) => refusal.number(),
            Fault::Step(fault) => fault.number(),
            Fault::JournalFormat => 50,
            Fault::JournalMismatch => 51,
            Fault::JournalImage => 52,
            Fault::JournalHasChanges => 56,
            Fault::CannotRead => 60,
            Fault::CannotWrite => 61,
            Fault::HostEntry => 62,
            Fault::HostName => 63,
            Fault::BadHex => 64,
            Fault::BadLine => 65,
            Fault::Other(fault) => fault.number(),
            Fault::Differ => 0,
        }
    }

    /// The status that the program ends with: 1 if a command was refused, two images differ, or a file in its entry is longer than asked; 2 for
    /// the command line; 3 if an image or a journal was refused; 4 if it is out of memory, and for what the host refused.
    pub fn status(self) -> u8
        ensures { result ≡ status_of_number (fault_number self) }
    {
        match self.number() {
            0 | 30..=43 | 46 | 53..=56 => 1,
            64 | 65 => 2,
            1..=22 | 50..=52 => 3,
            _ => 4,
        }
    }

    /// The fault's name, as the program prints it.
    pub fn name(self) -> &'static str {
        match self {
            Fault::Image(fault) => fault.name(),
            Fault::Mount(fault) => fault.name(),
            Fault::DamagedCommit => "DamagedCommit",
            Fault::Refused(refusal) => refusal.name(),
            Fault::Step(fault) => fault.name(),
            Fault::JournalFormat => "JournalFormat",
            Fault::JournalMismatch => "JournalMismatch",
            Fault::JournalImage => "JournalImage",
            Fault::JournalHasChanges => "JournalHasChanges",
            Fault::CannotRead => "CannotRead",
            Fault::CannotWrite => "CannotWrite",
            Fault::HostEntry => "HostEntry",
            Fault::HostName => "HostName",
            Fault::BadHex => "BadHex",
            Fault::BadLine => "BadLine",
            Fault::Other(fault) => fault.name(),
            Fault::Differ => "Differ",
        }
    }
}

impl fmt::Display for Fault {
    fn fmt<W: fmt::Write>(&self, f: &mut fmt::Formatter<W>) -> fmt::Result {
        match self {
            Fault::Refused(refusal) => refusal.fmt(f),
            Fault::Step(fault) => fault.fmt(f),
            fault => f.write_str(fault.name()),
        }
    }
}

impl From<MountFault> for Fault {
    ghost use Rattle.std.specs.Prelude.{◌≡◌};
    ghost use Rattle.lfs_request.specs.Fault.{fault_of_mount};

    ghost from_gives = { λ mount_fault fault. fault ≡ fault_of_mount mount_fault };

    fn from(fault: MountFault) -> Fault {
        match fault {
            MountFault::Memory => Fault::Refused(Refusal::Memory),
            fault => Fault::Mount(fault),
        }
    }
}

impl From<OpenFault> for Fault {
    ghost use Rattle.std.specs.Prelude.{◌≡◌};
    ghost use Rattle.lfs_request.specs.Fault.{fault_of_opening};

    ghost from_gives = { λ open_fault fault. fault ≡ fault_of_opening open_fault };

    fn from(fault: OpenFault) -> Fault {
        match fault {
            OpenFault::Mount(fault) => Fault::from(fault),
            OpenFault::JournalFormat => Fault::JournalFormat,
            OpenFault::JournalMismatch => Fault::JournalMismatch,
            OpenFault::JournalImage => Fault::JournalImage,
        }
    }
}

impl From<Refusal> for Fault {
    ghost use Rattle.std.specs.Prelude.{◌≡◌};
    ghost use Rattle.lfs_request.specs.declared.fault.Fault.TheVariants.{Refused};

    ghost from_gives = { λ refusal fault. fault ≡ Refused refusal };

    fn from(refusal: Refusal) -> Fault {
        Fault::Refused(refusal)
    }
}

impl From<StepFault> for Fault {
    ghost use Rattle.std.specs.Prelude.{◌≡◌};
    ghost use Rattle.lfs_request.specs.Fault.{fault_of_step};

    ghost from_gives = { λ step_fault fault. fault ≡ fault_of_step step_fault };

    fn from(fault: StepFault) -> Fault {
        match fault {
            StepFault::Refused(refusal) => Fault::Refused(refusal),
            StepFault::RefusedAt { refusal, .. } => Fault::Refused(refusal),
            fault => Fault::Step(fault),
        }
    }
}

impl From<AllocError> for Fault {
    ghost use Rattle.std.specs.Prelude.{◌≡◌};
    ghost use Rattle.lfs_command.specs.declared.refusal.Refusal.TheVariants.{Memory};
    ghost use Rattle.lfs_request.specs.declared.fault.Fault.TheVariants.{Refused};

    ghost from_gives = { λ error fault. fault ≡ Refused Memory };

    fn from(_error: AllocError) -> Fault {
        Fault::Refused(Refusal::Memory)
    }
}
