//! Rows of an image's tree.

use crate::row_body::RowBody;
use lfs_meta::Attribute;
use std::marker::Model;

/// What stands at a path, less the path. Its path is the name behind as many names of the row before it as the depth less
/// one; the root's row has depth 0 and no name. Its meaning is its depth with an entry, in which as many zeros as the
/// contents of a chain have bytes stand for them.
#[derive(Drop)]
pub struct Row<'a> {
    /// The number of names in its path.
    pub depth: usize,
    /// The last name of its path.
    pub name: &'a [u8],
    /// A directory, or where a file's bytes are.
    pub body: RowBody<'a>,
    /// The attributes, strictly rising by kind.
    pub attributes: &'a [Attribute],
}

impl<'a> Model for Row<'a> {
    ghost use Rattle.lfs_fs.specs.Listed.{Listed};
    ghost use Rattle.lfs_fs.specs.RowHeld.{row_body_held};

    ghost Value = { Listed };

    ghost view = { λ r. record { depth = r.depth; entry = record { name = r.name.now; body = row_body_held r.body; attributes = r.attributes.now } } };

    ghost invariant = { λ r. Unit };
}

impl<'a> Row<'a> {
    ghost use Rattle.std.specs.Prelude.{◌≡◌};
    ghost use Rattle.lfs_fs.specs.Entry.{leads};

    /// Whether it is a directory.
    pub fn is_dir(&self) -> bool
        ensures { result ≡ leads self.now.entry }
    {
        match &self.body {
            RowBody::Directory(..) => true,
            _ => false,
        }
    }
}
