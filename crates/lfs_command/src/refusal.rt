//! Why a new image or a change is refused.

use std::alloc::AllocError;
use std::fmt;
use thiserror::Error;

/// Why a new image or a change is refused.
#[derive(Clone, Copy, Debug, PartialEq, Eq, Error)]
pub enum Refusal {
    /// Nothing is at the path, or at a prefix of it.
    NotFound,
    /// Something is at the path already.
    Exists,
    /// A file is at a prefix of the path.
    NotADirectory,
    /// A directory is at the path of a file.
    IsADirectory,
    /// The directory to be removed has an entry.
    NotEmpty,
    /// The text spells no path.
    BadPath,
    /// The new name is longer than the image's limit.
    NameTooLong,
    /// The contents are longer than the image's limit.
    FileTooLarge,
    /// The attribute's value is longer than the image's limit.
    AttrTooLarge,
    /// There is no attribute of that kind.
    NoAttr,
    /// A directory can't be moved to a place below itself.
    IntoItself,
    /// The root can't be made, put, removed or moved.
    IsRoot,
    /// An entry of a part that the command sets is larger than a block has room for.
    EntryTooLarge,
    /// The command needs more new blocks than are free.
    NoSpace {
        /// How many new blocks the command needs.
        need: u32,
        /// How many blocks are free.
        free: u32,
    },
    /// A growth of memory was refused.
    Memory,
    /// The image has as many blocks, or an image of its block size can't have so many.
    BadCount,
}

impl Refusal {
    ghost use Rattle.std.specs.Prelude.{◌≡◌};
    ghost use Rattle.lfs_command.specs.Faults.{refusal_number};

    /// The refusal's number, from 30 to 44, or 46.
    pub fn number(self) -> u8
        ensures { result ≡ refusal_number self }
    {
        match self {
            Refusal::NotFound => 30,
            Refusal::Exists => 31,
            Refusal::NotADirectory => 32,
            Refusal::IsADirectory => 33,
            Refusal::NotEmpty => 34,
            Refusal::BadPath => 35,
            Refusal::NameTooLong => 36,
            Refusal::FileTooLarge => 37,
            Refusal::AttrTooLarge => 38,
            Refusal::NoAttr => 39,
            Refusal::IntoItself => 40,
            Refusal::IsRoot => 41,
            Refusal::EntryTooLarge => 42,
            Refusal::NoSpace { .. } => 43,
            Refusal::Memory => 44,
            Refusal::BadCount => 46,
        }
    }

    /// The refusal's name, as the program prints it.
    pub fn name(self) -> &'static str {
        match self {
            Refusal::NotFound => "NotFound",
            Refusal::Exists => "Exists",
            Refusal::NotADirectory => "NotADirectory",
            Refusal::IsADirectory => "IsADirectory",
            Refusal::NotEmpty => "NotEmpty",
            Refusal::BadPath => "BadPath",
            Refusal::NameTooLong => "NameTooLong",
            Refusal::FileTooLarge => "FileTooLarge",
            Refusal::AttrTooLarge => "AttrTooLarge",
            Refusal::NoAttr => "NoAttr",
            Refusal::IntoItself => "IntoItself",
            Refusal::IsRoot => "IsRoot",
            Refusal::EntryTooLarge => "EntryTooLarge",
            Refusal::NoSpace { .. } => "NoSpace",
            Refusal::Memory => "Memory",
            Refusal::BadCount => "BadCount",
        }
    }
}

impl fmt::Display for Refusal {
    fn fmt<W: fmt::Write>(&self, f: &mut fmt::Formatter<W>) -> fmt::Result {
        match self {
            Refusal::NoSpace { need, free } => write!(f, "NoSpace need {need} free {free}"),
            refusal => f.write_str(refusal.name()),
        }
    }
}

impl From<AllocError> for Refusal {
    ghost use Rattle.std.specs.Prelude.{◌≡◌};
    ghost use Rattle.lfs_command.specs.declared.refusal.Refusal.TheVariants.{Memory};

    ghost from_gives = { λ error refusal. refusal ≡ Memory };

    fn from(_error: AllocError) -> Refusal {
        Refusal::Memory
    }
}
