//! An entry, as tags leave it.

use crate::attribute_ref::AttributeRef;
use crate::body_ref::BodyRef;
use crate::kind::Kind;
use std::alloc::Global;
use std::marker::Model;

/// An entry, as tags leave it: its name or its struct may still be missing. What it holds is borrowed from a block.
///
/// Source: SPEC.md, "Metadata types".
#[derive(Drop)]
pub(crate) struct EntryDraft<'a> {
    /// The kind and the name.
    pub(crate) name: Option<(Kind, &'a [u8])>,
    /// The struct.
    pub(crate) body: Option<BodyRef<'a>>,
    /// The attributes, rising by kind.
    pub(crate) attributes: Vec<AttributeRef<'a>>,
}

impl<'a> Model for EntryDraft<'a> {
    ghost use Rattle.std.specs.Prelude.{option_map};
    ghost use Rattle.lfs_meta.specs.Entry.{RawEntry};
    ghost use Rattle.lfs_meta.specs.BodySeen.{body_seen};

    ghost Value = { RawEntry };

    ghost view = { λ e. record {
      name = option_map (λ n. (n.0, n.1.now)) e.name;
      body = option_map body_seen e.body;
      attributes = e.attributes.items;
    } };
}

impl<'a> EntryDraft<'a> {
    ghost use Rattle.std.specs.Prelude.{◌≡◌};
    ghost use Rattle.lfs_meta.specs.Entry.{blank};

    /// An entry without anything.
    pub(crate) fn blank(alloc: Global) -> Self
        ensures { result ≡ blank }
    {
        EntryDraft {
            name: None,
            body: None,
            attributes: Vec::new(alloc),
        }
    }
}
