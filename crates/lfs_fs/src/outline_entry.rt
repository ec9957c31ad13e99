//! What stands under a name of a directory, in an outline.

use crate::directory_table::unordered;
use crate::outline_body::OutlineBody;
use crate::row::Row;
use crate::row_body::RowBody;
use lfs_meta::Attribute;
use std::marker::Model;

/// What stands under a name of a directory. Its meaning is the entry of a volume, with as many zeros as the contents of
/// its chain have bytes. As it is stored its lengths and numbers fit into tags.
#[derive(Drop)]
pub struct OutlineEntry {
    /// The name.
    pub name: Vec<u8>,
    /// Where it is.
    pub body: OutlineBody,
    /// The attributes, strictly rising by kind.
    pub attributes: Vec<Attribute>,
}

impl Model for OutlineEntry {
    ghost use Rattle.lfs_meta.specs.Fits.{EntryFits};
    ghost use Rattle.lfs_fs.specs.AsStored.{stored_entry};
    ghost use Rattle.lfs_fs.specs.Entry.{Entry};
    ghost use Rattle.lfs_fs.specs.OutlineHeld.{outline_body_held};

    ghost Value = { Entry };

    ghost view = { λ e. record { name = e.name.items; body = outline_body_held e.body; attributes = e.attributes.items } };

    ghost invariant = { λ e. EntryFits (stored_entry (record {
      name = e.name.items;
      body = outline_body_held e.body;
      attributes = e.attributes.items;
    })) };
}

impl OutlineEntry {
    ghost use Rattle.std.specs.Prelude.{◌≡◌};
    ghost use Rattle.lfs_fs.specs.Entry.{is_named, target};
    ghost use Rattle.lfs_fs.specs.RowHeld.{row_body_held};

    /// Where its contents are.
    fn row_body(&self) -> RowBody<'_>
        ensures { row_body_held result ≡ self.now.body }
    {
        match &self.body {
            OutlineBody::Inline(bytes) => RowBody::Inline(bytes),
            OutlineBody::Chain { blocks, size } => RowBody::Chain {
                blocks,
                size: *size,
            },
            OutlineBody::Directory(first, second) => RowBody::Directory(*first, *second),
        }
    }

    /// Its row, at a depth.
    pub(crate) fn row(&self, depth: usize) -> Row<'_>
        ensures { result ≡ record { depth = depth; entry = self.now } }
    {
        Row {
            depth,
            name: &self.name,
            body: self.row_body(),
            attributes: &self.attributes,
        }
    }

    /// Whether it has a name.
    pub fn is_named(&self, name: &[u8]) -> bool
        ensures { result ≡ is_named name.now self.now }
    {
        name == self.name.as_slice()
    }

    /// The directory that it leads to, as a set of blocks: the lesser one first.
    pub fn target(&self) -> Option<(u32, u32)>
        ensures { result ≡ target self.now }
    {
        match &self.body {
            OutlineBody::Directory(first, second) => Some(unordered(*first, *second)),
            _ => None,
        }
    }
}
