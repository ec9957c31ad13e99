//! Commands that are planned.

/// What is done at a path.
#[derive(Clone, Copy, Drop)]
pub enum PlannedKind {
    /// What stands there is removed.
    Removal,
    /// A directory is made.
    Directory,
    /// A file's contents are put: those of the row at this place.
    File(usize),
}

/// A command that is planned, which keeps the text of its path.
#[derive(Drop)]
pub struct Planned {
    /// The text of the path.
    pub text: Vec<u8>,
    /// What is done there.
    pub kind: PlannedKind,
}
