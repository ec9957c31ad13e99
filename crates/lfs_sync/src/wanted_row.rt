//! A row of a folder, with the names of its path.

/// A row of a folder, with the names of its path.
#[derive(Drop)]
pub(crate) struct WantedRow<'a> {
    /// The names.
    pub(crate) path: Vec<&'a [u8]>,
    /// The row's place among all.
    pub(crate) place: usize,
}
