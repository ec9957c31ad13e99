//! Places of entries in an outline.

/// Where an entry stands in an outline: in which directory, in which of its parts, and where in that part, each counted
/// from 0. The depth is the number of names in its path. The root, which has no entry, is the place of depth 0. An image
/// has at most 65,536 blocks, two to a part, and each entry of a part takes a tag of four bytes, so 16 bits hold each number.
#[derive(Clone, Copy, Drop)]
pub struct Place {
    /// The number of names in the path.
    pub depth: u16,
    /// The directory in the order of the thread.
    pub directory: u16,
    /// The part of the directory.
    pub part: u16,
    /// The entry of the part.
    pub entry: u16,
}
