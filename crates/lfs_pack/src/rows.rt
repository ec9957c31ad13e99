//! Rows that are added to a new image: their commands are carried out.

ghost use Rattle.std.specs.Prelude.{◌≡◌, ◌+◌, ◌<◌, ◌^◌, IfErr, OnOk, length, map};
ghost use Rattle.std.specs.Option.{option_map};
ghost use Rattle.lfs_fs.specs.Volume.{Volume};
ghost use Rattle.lfs_command.specs.AskedFor.{named_command};
ghost use Rattle.lfs_pack.specs.Packed.{attribute_of, made_by, row_bytes};
ghost use Rattle.lfs_pack.specs.RowsCarried.{AddsRow, AddsRows, IsAtWork, Places, RefusesAdding, RefusesAll, RefusesOne, RefusesPlace};
ghost use Rattle.lfs_pack.specs.RowsCarried.{RefusesRows, SetsAll, SetsOne};

use crate::carrying_on::carry_on;
use crate::new_image::NewImage;
use crate::pack_row::PackRow;
use crate::packing_laws::packing_laws;
use lfs_command::{Command, Named, Refusal, names_of};
use std::alloc::Global;

/// Sets an attribute of what is at a path.
fn set_attribute(
    alloc: Global,
    new: &mut NewImage,
    text: &[u8],
    attribute: &(u8, Vec<u8>),
) -> Result<(), Refusal>
    requires { (v : Volume) × IsAtWork new.old v }
    ensures set { OnOk result (SetsOne text.now (attribute_of attribute.now) new.old new.new) }
    ensures at_work { OnOk result ((v : Volume) × IsAtWork new.new v) }
    ensures refused { IfErr result (λ r. RefusesOne text.now (attribute_of attribute.now) new.old r) }
{
    packing_laws();
    let path = names_of(alloc, text)?;
    let command = Command::SetAttr {
        path,
        kind: attribute.0,
        value: attribute.1.as_slice(),
    };
    carry_on(alloc, new, &command)?;
    Ok(())
}

/// Sets attributes of what is at a path, one after another.
fn set_attributes(
    alloc: Global,
    new: &mut NewImage,
    text: &[u8],
    attributes: &[(u8, Vec<u8>)],
) -> Result<(), Refusal>
    requires { (v : Volume) × IsAtWork new.old v }
    ensures set { OnOk result (SetsAll text.now (map attribute_of attributes.now) new.old new.new) }
    ensures refused { IfErr result (λ r. RefusesAll text.now (map attribute_of attributes.now) new.old r) }
{
    'each: for attribute in attributes {
        set_attribute(alloc, new, text, attribute)?;
    }
    Ok(())
}

/// The command that makes what a row has at a path: a directory, or a file.
fn making<'a>(path: Vec<&'a [u8]>, bytes: Option<&'a [u8]>, most: u32) -> Named<'a>
    ensures { named_command result ≡ made_by (map (λ n. n.now) path.entry.items) (option_map (λ b. b.now) bytes.entry) most }
{
    Command::making(path, bytes, most)
}

/// Makes what a row has at its path: a directory, or a file. The root is there.
fn place(alloc: Global, new: &mut NewImage, row: &PackRow<'_>) -> Result<(), Refusal>
    requires { (v : Volume) × IsAtWork new.old v }
    ensures placed { OnOk result (Places row.now.path.now (row_bytes row.now) row.now.most new.old new.new) }
    ensures refused { IfErr result (λ r. RefusesPlace row.now.path.now (row_bytes row.now) row.now.most new.old r) }
{
    packing_laws();
    let path = names_of(alloc, row.path)?;
    if path.is_empty() {
        return Ok(());
    }
    let command = making(path, row.bytes, row.most);
    carry_on(alloc, new, &command)?;
    Ok(())
}

/// Adds a row, with its attributes.
fn add_row(alloc: Global, new: &mut NewImage, row: &PackRow<'_>) -> Result<(), Refusal>
    requires { (v : Volume) × IsAtWork new.old v }
    ensures added { OnOk result (AddsRow row.now new.old new.new) }
    ensures refused { IfErr result (λ r. RefusesAdding row.now new.old r) }
{
    packing_laws();
    place(alloc, new, row)?;
    set_attributes(alloc, new, row.path, row.attributes)?;
    Ok(())
}

/// Adds rows, one after another, and counts them in `at`.
pub(crate) fn add_rows(
    alloc: Global,
    new: &mut NewImage,
    rows: &[PackRow<'_>],
    at: &mut usize,
) -> Result<(), Refusal>
    requires new { (v : Volume) × IsAtWork new.old v }
    requires few { at.old + length rows.now < 2 ^ 64 }
    ensures added { OnOk result (AddsRows rows.now new.old new.new) }
    ensures counted { OnOk result (at.new ≡ at.old + length rows.now) }
    ensures refused { IfErr result (λ r. RefusesRows rows.now new.old at.old at.new r) }
{
    packing_laws();
    'each: for row in rows {
        add_row(alloc, new, row)?;
        *at += 1;
    }
    Ok(())
}
