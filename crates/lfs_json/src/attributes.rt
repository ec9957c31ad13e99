//! Attributes as members.

ghost use Rattle.std.specs.Prelude.{OnOk, flat_map};
ghost use Rattle.json.specs.Tree.{json_tokens};
ghost use Rattle.lfs_json.specs.Written.{Adds, members_tokens};
ghost use Rattle.lfs_json.specs.Rows.{attribute_json, attribute_members};

use crate::members::{add_digits, add_number};
use json::Writer;
use lfs_meta::Attribute;
use std::alloc::{AllocError, Global};

/// Adds the object of an attribute.
fn add_attribute(alloc: Global, line: &mut Writer, attribute: &Attribute) -> Result<(), AllocError>
    ensures { OnOk result (Adds line.old line.new (json_tokens (attribute_json attribute.now))) }
{
    line.begin_object()?;
    add_number(line, "kind", u64::from(attribute.kind))?;
    add_digits(alloc, line, "value", &attribute.value)?;
    line.end_object()
}

/// Adds the objects of attributes.
fn add_each(alloc: Global, line: &mut Writer, attributes: &[Attribute]) -> Result<(), AllocError>
    ensures { OnOk result (Adds line.old line.new (flat_map (λ a. json_tokens (attribute_json a)) attributes.now)) }
{
    for attribute in attributes {
        add_attribute(alloc, line, attribute)?;
    }
    Ok(())
}

/// Adds attributes, where there are any.
pub(crate) fn add_attributes(
    alloc: Global,
    line: &mut Writer,
    attributes: &[Attribute],
) -> Result<(), AllocError>
    ensures { OnOk result (Adds line.old line.new (members_tokens (attribute_members attributes.now))) }
{
    if attributes.is_empty() {
        return Ok(());
    }
    line.key("attributes")?;
    line.begin_array()?;
    add_each(alloc, line, attributes)?;
    line.end_array()?;
    Ok(())
}
