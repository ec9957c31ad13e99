//! What becomes of entries.

use lfs_meta::Entry;

/// What becomes of an entry.
#[derive(Clone, Copy)]
pub(crate) enum Fate<'a> {
    /// An old one goes.
    Goes(&'a Entry),
    /// An old one stays, as a new one of its kind and name.
    Stays(&'a Entry, &'a Entry),
    /// A new one comes.
    Comes(&'a Entry),
}
