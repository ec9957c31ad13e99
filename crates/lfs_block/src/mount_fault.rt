//! Why an image does not mount.

ghost use Rattle.std.specs.Prelude.{◌≡◌};
ghost use Rattle.lfs_block.specs.Faults.{mount_fault_number};

use std::alloc::AllocError;
use std::fmt;
use thiserror::Error;

/// Why an image does not mount. Each but `Memory` names a cause that the image has.
#[derive(Clone, Copy, Debug, PartialEq, Eq, Error)]
pub enum MountFault {
    /// Neither block of a pair of the thread holds a commit.
    NoValidCommit,
    /// A log has a tag of a type that is not known.
    UnknownTag,
    /// A log has a tag whose id or length its type does not allow.
    BadTag,
    /// An entry has no name, no struct, or a struct that its kind does not take.
    IncompleteEntry,
    /// The name of a file or directory is empty, holds a slash, or is `.` or `..`.
    BadName,
    /// A file's struct of a size above 0 has no chain.
    BadSkipList,
    /// Entry 0 of the root's first pair is no superblock.
    NoSuperblock,
    /// The superblock's version is not 2.0.
    Version,
    /// The superblock's block size or block count is not the image's.
    Geometry,
    /// One of the superblock's three limits is out of range.
    Limits,
    /// A directory's names do not rise strictly.
    OrderFault,
    /// A tail or a directory struct names a block at or past the block count.
    BlockRange,
    /// A block has two uses, or a directory two names.
    BlockTwice,
    /// A directory entry names a pair that begins no directory of the thread.
    MissingDirectory,
    /// A directory of the thread is not reached from the root, or the global state says that one may not be.
    Orphan,
    /// The global state says that a move is unfinished.
    UnfinishedMove,
    /// An entry of superblock kind stands elsewhere than as entry 0 of the root's first pair.
    SuperblockElsewhere,
    /// A name, a file or an attribute is over the superblock's limit.
    BadSize,
    /// The global state is not zero, and says neither that a move is unfinished nor that there may be orphans.
    UnknownState,
    /// A growth of memory was refused.
    Memory,
}

impl MountFault {
    /// The fault's number: 3 to 21, and 44 for `Memory`.
    pub fn number(self) -> u8
        ensures { result ≡ mount_fault_number self }
    {
        match self {
            MountFault::NoValidCommit => 3,
            MountFault::UnknownTag => 4,
            MountFault::BadTag => 5,
            MountFault::IncompleteEntry => 6,
            MountFault::BadName => 7,
            MountFault::BadSkipList => 8,
            MountFault::NoSuperblock => 9,
            MountFault::Version => 10,
            MountFault::Geometry => 11,
            MountFault::Limits => 12,
            MountFault::OrderFault => 13,
            MountFault::BlockRange => 14,
            MountFault::BlockTwice => 15,
            MountFault::MissingDirectory => 16,
            MountFault::Orphan => 17,
            MountFault::UnfinishedMove => 18,
            MountFault::SuperblockElsewhere => 19,
            MountFault::BadSize => 20,
            MountFault::UnknownState => 21,
            MountFault::Memory => 44,
        }
    }

    /// The fault's name, as the program prints it.
    pub fn name(self) -> &'static str {
        match self {
            MountFault::NoValidCommit => "NoValidCommit",
            MountFault::UnknownTag => "UnknownTag",
            MountFault::BadTag => "BadTag",
            MountFault::IncompleteEntry => "IncompleteEntry",
            MountFault::BadName => "BadName",
            MountFault::BadSkipList => "BadSkipList",
            MountFault::NoSuperblock => "NoSuperblock",
            MountFault::Version => "Version",
            MountFault::Geometry => "Geometry",
            MountFault::Limits => "Limits",
            MountFault::OrderFault => "OrderFault",
            MountFault::BlockRange => "BlockRange",
            MountFault::BlockTwice => "BlockTwice",
            MountFault::MissingDirectory => "MissingDirectory",
            MountFault::Orphan => "Orphan",
            MountFault::UnfinishedMove => "UnfinishedMove",
            MountFault::SuperblockElsewhere => "SuperblockElsewhere",
            MountFault::BadSize => "BadSize",
            MountFault::UnknownState => "UnknownState",
            MountFault::Memory => "Memory",
        }
    }
}

impl From<AllocError> for MountFault {
    ghost use Rattle.lfs_block.specs.declared.mount_fault.MountFault.TheVariants.{Memory};

    ghost from_gives = { λ error fault. fault ≡ Memory };

    fn from(_error: AllocError) -> MountFault {
        MountFault::Memory
    }
}

impl fmt::Display for MountFault {
    fn fmt<W: fmt::Write>(&self, f: &mut fmt::Formatter<W>) -> fmt::Result {
        f.write_str(self.name())
    }
}
