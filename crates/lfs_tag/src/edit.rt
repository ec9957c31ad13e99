//! Tags to be written.

ghost use Rattle.std.specs.Prelude.{◌≡◌, ◌≢◌, length};
ghost use Rattle.lfs_tag.specs.EditData.{data_bytes};
ghost use Rattle.lfs_tag.specs.Tag.{word_of, main_kind, data_len};

use crate::edit_data::EditData;
use crate::tag::Tag;

/// A tag with its data, to be written into a commit. It is no checksum's, and has as many bytes as it says.
#[derive(Clone, Copy)]
pub struct Edit<'a> {
    /// The tag.
    pub tag: Tag,
    /// Its data.
    pub content: EditData<'a>,
    /// The tag is no checksum's.
    pub ghost kind: { main_kind (word_of tag) ≢ 5 },
    /// The data has the length that the tag says.
    pub ghost len: { length (data_bytes content) ≡ data_len (word_of tag) },
}
