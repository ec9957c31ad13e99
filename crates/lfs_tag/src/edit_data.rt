//! The data of a tag to be written.

/// The data of a tag to be written: bytes that stand elsewhere, or bytes of its own.
#[derive(Clone, Copy)]
pub enum EditData<'a> {
    /// Bytes that stand elsewhere.
    Bytes(&'a [u8]),
    /// Two words.
    Words([u8; 8]),
    /// What a superblock states.
    Header([u8; 24]),
}

impl EditData<'_> {
    ghost use Rattle.std.specs.Prelude.{◌≡◌};
    ghost use Rattle.lfs_tag.specs.EditData.{data_bytes};

    /// The bytes.
    pub fn as_bytes(&self) -> &[u8]
        ensures { result.now ≡ data_bytes self.now }
    {
        match self {
            EditData::Bytes(bytes) => bytes,
            EditData::Words(words) => words,
            EditData::Header(header) => header,
        }
    }
}
