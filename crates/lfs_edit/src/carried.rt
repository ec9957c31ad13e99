//! What a command takes and gives back.

/// The blocks that a command takes, in order, and those that it gives back.
#[derive(Drop)]
pub struct Carried {
    /// The blocks that it takes: those of a file's contents or of a new directory's pair, then those of new parts.
    pub blocks: Vec<u32>,
    /// The blocks of what it removes or replaces.
    pub gone: Vec<u32>,
    /// How many directories in front it may set parts of: it sets none of those behind.
    pub(crate) front: usize,
}
