//! Why the rows of an image do not all become files and folders of a host.

use lfs_host::{HostFault, MakeFault};
use std::alloc::AllocError;
use std::fmt;
use thiserror::Error;

/// Why the rows of an image do not all become files and folders of a host.
#[derive(Clone, Copy, Debug, PartialEq, Eq, Error)]
pub enum ExtractFault {
    /// A growth of memory was refused.
    Memory,
    /// A name of a row isn't UTF-8, or holds a zero byte.
    HostName,
    /// The host refuses to make a folder or a file, or to write to one.
    CannotWrite,
}

impl ExtractFault {
    /// The fault's name, as the program prints it.
    pub fn name(self) -> &'static str {
        match self {
            ExtractFault::Memory => "Memory",
            ExtractFault::HostName => "HostName",
            ExtractFault::CannotWrite => "CannotWrite",
        }
    }
}

impl fmt::Display for ExtractFault {
    fn fmt<W: fmt::Write>(&self, f: &mut fmt::Formatter<W>) -> fmt::Result {
        f.write_str(self.name())
    }
}

impl From<AllocError> for ExtractFault {
    ghost use Rattle.std.specs.Prelude.{◌≡◌};
    ghost use Rattle.lfs_extract.specs.declared.extract_fault.ExtractFault.TheVariants.{Memory};

    ghost from_gives = { λ error fault. fault ≡ Memory };

    fn from(_error: AllocError) -> ExtractFault {
        ExtractFault::Memory
    }
}

impl From<HostFault> for ExtractFault {
    ghost use Rattle.std.specs.Prelude.{◌≡◌};
    ghost use Rattle.lfs_extract.specs.declared.extract_fault.ExtractFault.TheVariants.{CannotWrite};

    ghost from_gives = { λ refused fault. fault ≡ CannotWrite };

    fn from(_refused: HostFault) -> ExtractFault {
        ExtractFault::CannotWrite
    }
}

impl From<MakeFault> for ExtractFault {
    ghost use Rattle.std.specs.Prelude.{◌≡◌};
    ghost use Rattle.lfs_extract.specs.declared.extract_fault.ExtractFault.TheVariants.{CannotWrite};

    ghost from_gives = { λ refused fault. fault ≡ CannotWrite };

    fn from(_refused: MakeFault) -> ExtractFault {
        ExtractFault::CannotWrite
    }
}
