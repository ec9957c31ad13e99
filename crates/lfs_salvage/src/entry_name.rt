//! The name of an entry, and where it stands.

/// The name of an entry, the first block of the part that it stands in, and its number there.
#[derive(Clone, Copy)]
pub(crate) struct EntryName<'a> {
    pub name: &'a [u8],
    pub block: u32,
    pub index: usize,
}
