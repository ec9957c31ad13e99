//! What a block is used for.

use crate::parent::Parent;

/// What a block is used for, of all that is found and saved so far.
#[derive(Clone, Copy, Debug, PartialEq, Eq)]
pub enum BlockUse {
    /// Nothing.
    Free,
    /// The part that is found at a call of an area: their numbers, from 0.
    Part { area: usize, call: usize },
    /// The chain of a file that is saved.
    Chain,
    /// The same, as its last block: where the file stands, and how many bytes it has.
    Head { parent: Parent, size: u32 },
}

impl BlockUse {
    ghost use Rattle.std.specs.Prelude.{◌≡◌};
    ghost use Rattle.lfs_salvage.specs.Fate.{is_free};

    /// Whether it is none.
    pub(crate) fn is_free(self) -> bool
        ensures { result ≡ is_free self }
    {
        match self {
            BlockUse::Free => true,
            BlockUse::Part { .. } => false,
            BlockUse::Chain => false,
            BlockUse::Head { .. } => false,
        }
    }
}
