//! An entry that isn't saved.

use crate::parent::Parent;
use lfs_block::MountFault;

/// Why an entry isn't saved.
#[derive(Clone, Copy, Debug, PartialEq, Eq)]
pub enum Why {
    /// Its file can't be read, for this.
    Fault(MountFault),
    /// Its file is saved already, under another name.
    Elsewhere(Parent),
    /// The host can't have a name for it.
    Name,
}

/// An entry that isn't saved.
#[derive(Clone, Copy, Debug, PartialEq, Eq)]
pub struct Unsaved {
    /// Where the entry stands.
    pub parent: Parent,
    /// Why it isn't saved.
    pub why: Why,
}
