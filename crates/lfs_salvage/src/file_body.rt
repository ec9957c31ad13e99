//! What becomes of an entry.

use crate::parent::Parent;
use lfs_block::MountFault;

/// What becomes of an entry of a part that is found.
#[derive(Drop)]
pub(crate) enum FileBody {
    /// A file is saved, of the bytes in its entry.
    Inline,
    /// A file of `size` bytes is saved, of a chain: its last block, and all of them, from block 0 on.
    Chain {
        head: u32,
        blocks: Vec<u32>,
        size: u32,
    },
    /// A file that is saved already, under another name.
    Elsewhere(Parent),
    /// It is no file.
    Passed,
    /// A file that isn't saved, for this.
    Lost(MountFault),
}
