//! Copies of attributes.

ghost use Rattle.std.specs.Prelude.{◌≡◌, All, IfOk};
ghost use Rattle.lfs_meta.specs.Fits.{AttributeFits};

use crate::attribute::Attribute;
use std::alloc::{AllocError, Global};

/// A copy of an attribute.
fn copied_attribute(alloc: Global, attribute: &Attribute) -> Result<Attribute, AllocError>
    ensures { IfOk result (λ copy. copy ≡ attribute.now) }
{
    Ok(Attribute {
        kind: attribute.kind,
        value: Vec::from_slice(alloc, &attribute.value)?,
    })
}

/// A copy of attributes. Each of them fits into a tag.
pub fn copied_attributes(
    alloc: Global,
    attributes: &[Attribute],
) -> Result<Vec<Attribute>, AllocError>
    ensures same { IfOk result (λ copy. copy.items ≡ attributes.now) }
    ensures fit { IfOk result (λ copy. All AttributeFits copy.items) }
{
    let mut copy = Vec::with_capacity(alloc, attributes.len())?;
    for attribute in attributes {
        copy.push(copied_attribute(alloc, attribute)?)?;
    }
    Ok(copy)
}
