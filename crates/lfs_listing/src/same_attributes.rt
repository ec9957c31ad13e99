//! Attributes compared.

ghost use Rattle.std.specs.Prelude.{◌≡◌};
ghost use Rattle.lfs_listing.specs.Difference.{same_attribute, same_attributes};

use lfs_meta::Attribute;

/// Whether two attributes are the same.
fn same_attribute(attribute: &Attribute, other: &Attribute) -> bool
    ensures { result ≡ same_attribute attribute.now other.now }
{
    attribute.kind == other.kind && attribute.value == other.value
}

/// Whether the attributes are the same, in the same order.
pub(crate) fn have_same_attributes(attributes: &[Attribute], others: &[Attribute]) -> bool
    ensures { result ≡ same_attributes attributes.now others.now }
{
    'each: for (index, attribute) in attributes.iter().enumerate() {
        let Some(other) = others.get(index) else {
            return false;
        };
        if !same_attribute(attribute, other) {
            return false;
        }
    }
    attributes.len() == others.len()
}
