//! User attributes, whose values are borrowed from a block.

use crate::attributes::HasKind;
use std::marker::Model;

/// A user attribute. Its meaning is its kind with the bytes of its value.
///
/// Source: SPEC.md, "0x3xx user attribute".
#[derive(Drop)]
pub(crate) struct AttributeRef<'a> {
    /// The kind.
    pub(crate) kind: u8,
    /// The value, of at most 1,022 bytes.
    pub(crate) value: &'a [u8],
}

impl<'a> Model for AttributeRef<'a> {
    ghost use Rattle.std.specs.Prelude.{ℕ, List};

    ghost Value = { ℕ × List ℕ };

    ghost view = { λ a. (a.kind, a.value.now) };
}

impl<'a> HasKind for AttributeRef<'a> {
    ghost kind_of = { λ a. a.0 };

    fn kind(&self) -> u8 {
        self.kind
    }
}
