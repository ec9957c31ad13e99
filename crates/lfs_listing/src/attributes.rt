//! The lines of attributes.

ghost use Rattle.std.specs.Prelude.{◌≡◌, ◌++◌, OnOk, flat_map};
ghost use Rattle.lfs_listing.specs.Listing.{attribute_line};

use crate::digits::{append_all_digits, append_digits};
use lfs_meta::Attribute;
use std::alloc::AllocError;

/// Adds the line of an attribute.
pub(crate) fn append_attribute(text: &mut Vec<u8>, attribute: &Attribute) -> Result<(), AllocError>
    ensures { OnOk result (text.new.items ≡ text.old.items ++ attribute_line attribute.now) }
{
    text.extend_from_slice(b"@ ")?;
    append_digits(text, attribute.kind)?;
    text.extend_from_slice(b" ")?;
    append_all_digits(text, &attribute.value)?;
    text.extend_from_slice(b"\n")
}

/// Adds the lines of attributes.
pub(crate) fn append_attributes(
    text: &mut Vec<u8>,
    attributes: &[Attribute],
) -> Result<(), AllocError>
    ensures { OnOk result (text.new.items ≡ text.old.items ++ flat_map attribute_line attributes.now) }
{
    for attribute in attributes {
        append_attribute(text, attribute)?;
    }
    Ok(())
}
