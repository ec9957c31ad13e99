//! What is found at a pair.

use lfs_block::MountFault;
use lfs_meta::Part;

/// What is found at a pair.
#[derive(Drop)]
pub enum Found {
    /// It holds a part.
    Part(Part),
    /// It isn't read, for this.
    Refused(MountFault),
}
