//! An entry that has its name and its struct.

use crate::attribute::{Attribute, remove_attribute, set_attribute};
use crate::body::Body;
use crate::kind::Kind;
use std::alloc::{AllocError, Global};
use std::marker::Model;

/// An entry that has its name and its struct. Its name, its contents and each value have at most 1,022 bytes.
///
/// Source: SPEC.md, "Metadata types".
#[derive(Drop)]
pub struct Entry {
    /// The name.
    pub name: Vec<u8>,
    /// What the entry is.
    pub kind: Kind,
    /// The struct.
    pub body: Body,
    /// The attributes, strictly rising by kind.
    pub attributes: Vec<Attribute>,
}

impl Model for Entry {
    ghost use Rattle.lfs_meta.specs.Entry.{StoredEntry};
    ghost use Rattle.lfs_meta.specs.BodyHeld.{body_held};
    ghost use Rattle.lfs_meta.specs.Fits.{EntryFits};

    ghost Value = { StoredEntry };

    ghost view = { λ e. record {
      kind = e.kind;
      name = e.name.items;
      body = body_held e.body;
      attributes = e.attributes.items;
    } };

    ghost invariant = { λ e. EntryFits (record {
      kind = e.kind;
      name = e.name.items;
      body = body_held e.body;
      attributes = e.attributes.items;
    }) };
}

impl Entry {
    ghost use Rattle.std.specs.Prelude.{◌≡◌, ◌==◌, ◌<◌, length, not, OnOk, OnErr};
    ghost use Rattle.std.specs.List.{list_any};
    ghost use Rattle.lfs_meta.specs.Attribute.{set_attribute, remove_attribute};
    ghost use Rattle.lfs_meta.specs.Entry.{entry_with_attributes};

    /// Whether the entry has an attribute of a kind.
    pub fn has_attribute(&self, kind: u8) -> bool
        ensures { result ≡ list_any (λ a. kind == a.0) self.now.attributes }
    {
        self.attributes
            .iter()
            .any(|attribute| kind == attribute.kind)
    }

    /// Sets the value of a kind. Want of memory changes nothing.
    pub fn set_attribute(&mut self, alloc: Global, kind: u8, value: &[u8]) -> Result<(), AllocError>
        requires { length value.now < 1023 }
        ensures set { OnOk result (self.new ≡ entry_with_attributes (set_attribute kind value.now) self.old) }
        ensures unchanged { OnErr result (self.new ≡ self.old) }
    {
        set_attribute(&mut self.attributes, alloc, kind, value)
    }

    /// Takes the value of a kind out.
    pub fn remove_attribute(&mut self, kind: u8)
        ensures { self.new ≡ entry_with_attributes (remove_attribute kind) self.old }
    {
        remove_attribute(&mut self.attributes, kind);
    }
}
