//! A row of an image's tree, with all that it holds in hand.

use crate::pack_row::PackRow;

/// A row of an image's tree, copied: the text of its path, a file's contents, and its attributes.
#[derive(Drop)]
pub struct SourceRow {
    /// The text of the path.
    pub path: Vec<u8>,
    /// A file's contents; a directory has none.
    pub bytes: Option<Vec<u8>>,
    /// The attributes, by kind, with their values.
    pub attributes: Vec<(u8, Vec<u8>)>,
}

impl SourceRow {
    ghost use Rattle.std.specs.Prelude.{◌≡◌};
    ghost use Rattle.lfs_pack.specs.RowText.{pack_text, source_text};

    /// The row as it is packed. A file stands in its entry if it has at most `most` bytes.
    pub(crate) fn pack_row(&self, most: u32) -> PackRow<'_>
        ensures { pack_text result ≡ source_text most self.now }
    {
        PackRow {
            path: self.path.as_slice(),
            bytes: self.bytes.as_deref(),
            most,
            attributes: self.attributes.as_slice(),
        }
    }
}
