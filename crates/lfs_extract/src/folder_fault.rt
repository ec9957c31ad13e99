//! Why a folder is not read.

use lfs_host::{ListFault, ReadFault};
use std::alloc::AllocError;
use std::fmt;
use thiserror::Error;

/// Why a folder is not read.
#[derive(Clone, Copy, Debug, PartialEq, Eq, Error)]
pub enum FolderFault {
    /// A growth of memory was refused.
    Memory,
    /// Something below the folder is neither a regular file nor a folder.
    HostEntry,
    /// A name below the folder isn't UTF-8, or can't be one in an image: it is empty, holds a zero byte or a slash, or is
    /// `.` or `..`.
    HostName,
    /// Something can't be read: the host refuses, the folder is none, a name stands twice in one folder, nothing is under a
    /// name that a folder has, or there are more files and folders than an image can hold.
    CannotRead,
}

impl FolderFault {
    /// The fault's name, as the program prints it.
    pub fn name(self) -> &'static str {
        match self {
            FolderFault::Memory => "Memory",
            FolderFault::HostEntry => "HostEntry",
            FolderFault::HostName => "HostName",
            FolderFault::CannotRead => "CannotRead",
        }
    }
}

impl fmt::Display for FolderFault {
    fn fmt<W: fmt::Write>(&self, f: &mut fmt::Formatter<W>) -> fmt::Result {
        f.write_str(self.name())
    }
}

impl From<AllocError> for FolderFault {
    ghost use Rattle.std.specs.Prelude.{◌≡◌};
    ghost use Rattle.lfs_extract.specs.declared.folder_fault.FolderFault.TheVariants.{Memory};

    ghost from_gives = { λ error fault. fault ≡ Memory };

    fn from(_error: AllocError) -> FolderFault {
        FolderFault::Memory
    }
}

impl From<ReadFault> for FolderFault {
    ghost use Rattle.std.specs.Prelude.{◌≡◌};
    ghost use Rattle.lfs_extract.specs.FolderFault.{folder_fault_of};

    ghost from_gives = { λ read fault. fault ≡ folder_fault_of read };

    fn from(read: ReadFault) -> FolderFault {
        match read {
            ReadFault::Memory => FolderFault::Memory,
            ReadFault::CannotRead => FolderFault::CannotRead,
        }
    }
}

impl From<ListFault> for FolderFault {
    ghost use Rattle.std.specs.Prelude.{◌≡◌};
    ghost use Rattle.lfs_extract.specs.FolderFault.{fault_of_listing};

    ghost from_gives = { λ listed fault. fault ≡ fault_of_listing listed };

    fn from(listed: ListFault) -> FolderFault {
        match listed {
            ListFault::Memory => FolderFault::Memory,
            ListFault::NotText => FolderFault::HostName,
            ListFault::CannotRead => FolderFault::CannotRead,
        }
    }
}
