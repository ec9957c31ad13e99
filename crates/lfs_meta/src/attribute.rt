//! User attributes.

ghost use Rattle.std.specs.Prelude.{◌≡◌, ◌<◌, length, OnOk, OnErr};
ghost use Rattle.lfs_meta.specs.Attribute.{remove_attribute, set_attribute};
ghost use Rattle.lfs_meta.specs.Fits.{RiseFrom};

use crate::attributes::{HasKind, remove, set};
use std::alloc::{AllocError, Global};
use std::marker::Model;

/// A user attribute. Its meaning is its kind with the bytes of its value.
///
/// Source: SPEC.md, "0x3xx user attribute".
#[derive(Drop)]
pub struct Attribute {
    /// The kind.
    pub kind: u8,
    /// The value, of at most 1,022 bytes.
    pub value: Vec<u8>,
}

impl Model for Attribute {
    ghost use Rattle.std.specs.Prelude.{ℕ, List};
    ghost use Rattle.lfs_meta.specs.Fits.{AttributeFits};

    ghost Value = { ℕ × List ℕ };

    ghost view = { λ a. (a.kind, a.value.items) };

    ghost invariant = { λ a. AttributeFits (a.kind, a.value.items) };
}

impl HasKind for Attribute {
    ghost kind_of = { λ a. a.0 };

    fn kind(&self) -> u8 {
        self.kind
    }
}

/// Sets the value of a kind among attributes that rise by kind. Want of memory changes nothing.
pub fn set_attribute(
    attributes: &mut Vec<Attribute>,
    alloc: Global,
    kind: u8,
    value: &[u8],
) -> Result<(), AllocError>
    requires { length value.now < 1023 }
    ensures set { OnOk result (attributes.new.items ≡ set_attribute kind value.now attributes.old.items) }
    ensures unchanged { OnErr result (attributes.new.items ≡ attributes.old.items) }
    ensures rise { RiseFrom 0 attributes.old.items → RiseFrom 0 attributes.new.items }
{
    let value = Vec::from_slice(alloc, value)?;
    set(attributes, Attribute { kind, value })
}

/// Takes the value of a kind out of attributes.
pub fn remove_attribute(attributes: &mut Vec<Attribute>, kind: u8)
    ensures removed { attributes.new.items ≡ remove_attribute kind attributes.old.items }
    ensures rise { RiseFrom 0 attributes.old.items → RiseFrom 0 attributes.new.items }
{
    remove(attributes, kind);
}
