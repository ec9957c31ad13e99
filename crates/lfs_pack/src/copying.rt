//! The rows of a mounted image, copied.

ghost use Rattle.std.specs.Prelude.{◌≡◌, ◌<◌, ◌≤◌, [], All, IfOk, OnOk, length, map};
ghost use Rattle.std.specs.Option.{option_map};
ghost use Rattle.lfs_file.specs.Content.{content};
ghost use Rattle.lfs_fs.specs.Limits.{most_held};
ghost use Rattle.lfs_fs.specs.Listed.{path_after, rows_listed};
ghost use Rattle.lfs_fs.specs.Mounted.{IsMountOf};
ghost use Rattle.lfs_fs.specs.Path.{path_text};
ghost use Rattle.lfs_fs.specs.RowHeld.{row_body_held};
ghost use Rattle.lfs_fs.specs.RowShown.{HasBlocks, shown_body};
ghost use Rattle.lfs_pack.specs.Packed.{attribute_of};
ghost use Rattle.lfs_pack.specs.Copies.{AreCopies};
ghost use Rattle.lfs_pack.specs.Repacked.{node_bytes};
ghost use Rattle.lfs_pack.specs.RowText.{shown_text, source_text};

use crate::repack_laws::{rows_are_of_their_texts, rows_pack_to_their_tree};
use crate::source_row::SourceRow;
use lfs_block::Blocks;
use lfs_file::send_blocks;
use lfs_fs::{Mounted, Row, RowBody, Rows, follow, rows_show_the_tree};
use lfs_meta::Attribute;
use lfs_sink::MemorySink;
use std::alloc::{AllocError, Global};

/// Turns the path of a row into that of the next one.
fn follow_row<'a>(path: &mut Vec<&'a [u8]>, next: &Row<'a>) -> Result<(), AllocError>
    ensures { OnOk result (map (λ n. n.now) path.new.items
        ≡ path_after (map (λ n. n.now) path.old.items) next.now.depth next.now.entry.name) }
{
    follow(path, next.depth, next.name)?;
    Ok(())
}

/// The text of a path.
fn text_of(alloc: Global, path: &[&[u8]]) -> Result<Vec<u8>, AllocError>
    ensures { IfOk result (λ text. text.items ≡ path_text (map (λ n. n.now) path.now)) }
{
    if path.is_empty() {
        return Vec::from_slice(alloc, b"/");
    }
    let mut text = Vec::new(alloc);
    for name in path {
        text.push(b'/')?;
        text.extend_from_slice(name)?;
    }
    Ok(text)
}

/// The contents of a file of `size` bytes in these blocks.
fn chain_bytes<B: Blocks>(
    alloc: Global,
    disk: &B,
    blocks: &[u32],
    size: u32,
) -> Result<Vec<u8>, AllocError>
    requires below { All (λ b. b < (B.disk disk.now).count) blocks.now }
    requires few { length blocks.now ≤ (B.disk disk.now).count }
    ensures { IfOk result (λ bytes. bytes.items ≡ content (B.disk disk.now) size blocks.now) }
{
    let mut text = MemorySink::new(alloc);
    if !send_blocks(disk, blocks, size, &mut text) {
        return Err(AllocError);
    }
    Ok(text.bytes)
}

/// A file's bytes; a directory has none.
fn bytes_of<B: Blocks>(
    alloc: Global,
    disk: &B,
    body: &RowBody<'_>,
) -> Result<Option<Vec<u8>>, AllocError>
    requires { HasBlocks (B.disk disk.now) (row_body_held body.now) }
    ensures { IfOk result (λ bytes. option_map (λ b. b.items) bytes ≡ node_bytes (shown_body (B.disk disk.now) (row_body_held body.now) [])) }
{
    match body {
        RowBody::Inline(bytes) => Ok(Some(Vec::from_slice(alloc, bytes)?)),
        RowBody::Chain { blocks, size } => Ok(Some(chain_bytes(alloc, disk, blocks, *size)?)),
        RowBody::Directory(..) => Ok(None),
    }
}

/// A copy of attributes, by kind, with their values.
fn attributes_of(alloc: Global, attributes: &[Attribute]) -> Result<Vec<(u8, Vec<u8>)>, AllocError>
    ensures { IfOk result (λ copied. map attribute_of copied.items ≡ attributes.now) }
{
    let mut copied = Vec::new(alloc);
    for attribute in attributes {
        let value = Vec::from_slice(alloc, &attribute.value)?;
        copied.push((attribute.kind, value))?;
    }
    Ok(copied)
}

/// A copy of a row with this path.
fn source_row<B: Blocks>(
    alloc: Global,
    disk: &B,
    path: &[&[u8]],
    row: &Row<'_>,
) -> Result<SourceRow, AllocError>
    requires { HasBlocks (B.disk disk.now) row.now.entry.body }
    ensures { IfOk result (λ copied. source_text most_held copied
        ≡ shown_text most_held (B.disk disk.now) (record { path = map (λ n. n.now) path.now; entry = row.now.entry })) }
{
    Ok(SourceRow {
        path: text_of(alloc, path)?,
        bytes: bytes_of(alloc, disk, &row.body)?,
        attributes: attributes_of(alloc, row.attributes)?,
    })
}

/// Copies of rows, in their order.
fn copied_rows<B: Blocks>(
    alloc: Global,
    disk: &B,
    rows: Rows<'_>,
) -> Result<Vec<SourceRow>, AllocError>
    requires { All (λ r. HasBlocks (B.disk disk.now) r.entry.body) (rows_listed rows) }
    ensures { IfOk result (λ copied. map (source_text most_held) copied.items ≡ map (shown_text most_held (B.disk disk.now)) (rows_listed rows.entry)) }
{
    let mut path = Vec::new(alloc);
    let mut copied = Vec::new(alloc);
    for row in rows {
        follow_row(&mut path, &row)?;
        copied.push(source_row(alloc, disk, &path, &row)?)?;
    }
    Ok(copied)
}

/// Copies of the rows of a mounted image, in their order: of a file its contents, and of each row its attributes. Takes memory for all
/// that the image holds.
pub fn source_rows<B: Blocks>(
    alloc: Global,
    disk: &B,
    mounted: &Mounted,
) -> Result<Vec<SourceRow>, AllocError>
    requires { IsMountOf (B.disk disk.now) mounted.now }
    ensures { IfOk result (λ copied. AreCopies (B.disk disk.now) mounted.now.rows copied.items) }
{
    rows_show_the_tree();
    rows_pack_to_their_tree();
    rows_are_of_their_texts();
    let _within_limits = disk.size();
    copied_rows(alloc, disk, mounted.rows())
}
