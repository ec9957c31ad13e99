//! Why bytes are no image.

ghost use Rattle.std.specs.Prelude.{◌≡◌};
ghost use Rattle.lfs_block.specs.Faults.{image_fault_number};

use std::fmt;
use thiserror::Error;

/// Why bytes are no image of a block size.
#[derive(Clone, Copy, Debug, PartialEq, Eq, Error)]
pub enum ImageFault {
    /// The length is no multiple of the block size.
    ImageLength,
    /// The block size, the block count or the length is out of its limit.
    BadGeometry,
}

impl ImageFault {
    /// The fault's number, 1 or 2.
    pub fn number(self) -> u8
        ensures { result ≡ image_fault_number self }
    {
        match self {
            ImageFault::ImageLength => 1,
            ImageFault::BadGeometry => 2,
        }
    }

    /// The fault's name, as the program prints it.
    pub fn name(self) -> &'static str {
        match self {
            ImageFault::ImageLength => "ImageLength",
            ImageFault::BadGeometry => "BadGeometry",
        }
    }
}

impl fmt::Display for ImageFault {
    fn fmt<W: fmt::Write>(&self, f: &mut fmt::Formatter<W>) -> fmt::Result {
        f.write_str(self.name())
    }
}
