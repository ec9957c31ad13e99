//! Why an image that another is compared with is refused.

use lfs_block::{ImageFault, MountFault};
use std::fmt;
use thiserror::Error;

/// Why an image that another is compared with is refused.
#[derive(Clone, Copy, Debug, PartialEq, Eq, Error)]
pub enum OtherFault {
    /// Its bytes are no image.
    Image(ImageFault),
    /// It does not mount.
    Mount(MountFault),
    /// Its file could not be read.
    CannotRead,
}

impl OtherFault {
    ghost use Rattle.std.specs.Prelude.{◌≡◌};
    ghost use Rattle.lfs_request.specs.Fault.{other_fault_number};

    /// The fault's number, which is the one that it has for the first image too.
    pub fn number(self) -> u8
        ensures { result ≡ other_fault_number self }
    {
        match self {
            OtherFault::Image(fault) => fault.number(),
            OtherFault::Mount(fault) => fault.number(),
            OtherFault::CannotRead => 60,
        }
    }

    /// The fault's name, as the program prints it.
    pub fn name(self) -> &'static str {
        match self {
            OtherFault::Image(fault) => fault.name(),
            OtherFault::Mount(fault) => fault.name(),
            OtherFault::CannotRead => "CannotRead",
        }
    }
}

impl fmt::Display for OtherFault {
    fn fmt<W: fmt::Write>(&self, f: &mut fmt::Formatter<W>) -> fmt::Result {
        f.write_str(self.name())
    }
}
