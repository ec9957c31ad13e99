//! The words under which an entry may be made.

/// A word under which an entry may be made, in the order in which they are tried.
#[derive(Clone, Copy, Debug, PartialEq, Eq)]
pub(crate) enum Wording {
    /// The host's word for its name.
    Own,
    /// That with the entry's numbers behind it.
    Numbered,
    /// The numbers alone.
    Alone,
}
