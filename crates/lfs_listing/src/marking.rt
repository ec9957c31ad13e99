//! What is said of rows that differ: lines with a mark in front, or objects.

ghost use Rattle.std.specs.Prelude.{◌≡◌, ◌++◌, OnOk, flat_map, map};
ghost use Rattle.lfs_listing.specs.Difference.{marked_text, marked_line, marked_lines, rewritten};
ghost use Rattle.lfs_listing.specs.Listing.{attribute_line};

use crate::attributes::append_attribute;
use crate::entries::append_entry;
use crate::mark::Mark;
use lfs_fs::Row;
use lfs_json::{Form, append_json_change, append_json_contents};
use lfs_meta::Attribute;
use std::alloc::{AllocError, Global};

/// Adds the lines of attributes, each with a mark in front.
fn append_marked_attributes(
    text: &mut Vec<u8>,
    mark: &[u8],
    attributes: &[Attribute],
) -> Result<(), AllocError>
    ensures { OnOk result (text.new.items ≡ text.old.items ++ flat_map (λ a. mark.now ++ attribute_line a) attributes.now) }
{
    for attribute in attributes {
        text.extend_from_slice(mark)?;
        append_attribute(text, attribute)?;
    }
    Ok(())
}

/// Adds the line of a row at a path, without its attributes, with a mark in front.
fn append_marked_entry(
    text: &mut Vec<u8>,
    mark: &[u8],
    path: &[&[u8]],
    row: &Row<'_>,
) -> Result<(), AllocError>
    ensures { OnOk result (text.new.items
        ≡ text.old.items ++ marked_line mark.now (record { path = map (λ n. n.now) path.now; entry = row.now.entry })) }
{
    text.extend_from_slice(mark)?;
    append_entry(text, path, row)
}

/// Adds the lines of a row at a path, each with a mark in front.
fn append_marked_lines(
    text: &mut Vec<u8>,
    mark: &[u8],
    path: &[&[u8]],
    row: &Row<'_>,
) -> Result<(), AllocError>
    ensures { OnOk result (text.new.items
        ≡ text.old.items ++ marked_lines mark.now (record { path = map (λ n. n.now) path.now; entry = row.now.entry })) }
{
    append_marked_entry(text, mark, path, row)?;
    append_marked_attributes(text, mark, row.attributes)
}

/// Adds what is said of a row at a path that only one image has.
pub(crate) fn append_marked(
    alloc: Global,
    form: Form,
    text: &mut Vec<u8>,
    mark: Mark,
    path: &[&[u8]],
    row: &Row<'_>,
) -> Result<(), AllocError>
    ensures { OnOk result (text.new.items
        ≡ text.old.items ++ marked_text form mark (record { path = map (λ n. n.now) path.now; entry = row.now.entry })) }
{
    match form {
        Form::Text => append_marked_lines(text, mark.text(), path, row),
        Form::Json => append_json_change(alloc, text, mark.word(), path, row),
    }
}

/// Adds what is said of a row at a path of which only the contents differ.
pub(crate) fn append_rewritten(
    alloc: Global,
    form: Form,
    text: &mut Vec<u8>,
    path: &[&[u8]],
    row: &Row<'_>,
) -> Result<(), AllocError>
    ensures { OnOk result (text.new.items
        ≡ text.old.items ++ rewritten form (record { path = map (λ n. n.now) path.now; entry = row.now.entry })) }
{
    match form {
        Form::Text => append_marked_entry(text, b"~ ", path, row),
        Form::Json => append_json_contents(alloc, text, "contents", path, row),
    }
}
