//! How the parts of an outline are stored.

ghost use Rattle.std.specs.Prelude.{◌≡◌, ◌++◌, map, IfOk, OnOk};
ghost use Rattle.lfs_meta.specs.BodyHeld.{body_held};
ghost use Rattle.lfs_fs.specs.AsStored.{head_of, stored_body, stored_entry, stored_kind};
ghost use Rattle.lfs_fs.specs.OutlineHeld.{outline_body_held};
ghost use Rattle.lfs_fs.specs.Sound.{AreAttributes};
ghost use Rattle.lfs_fs.specs.Superblock.{superblock_entry};
ghost use Rattle.lfs_law.specs.SuperblockBytes.{volume_bytes};
ghost use Rattle.lfs_law.specs.WrittenLinks.{stored_entries};

use crate::superblock::superblock;
use lfs_fs::{Outline, OutlineBody, OutlineEntry, OutlinePart, ROOT};
use lfs_meta::{Body, Entry, Kind, copied_attributes};
use std::alloc::{AllocError, Global};

/// Whether a body is a file's or a directory's.
fn stored_kind(body: &OutlineBody) -> Kind
    ensures { result ≡ stored_kind (outline_body_held body.now) }
{
    match body {
        OutlineBody::Inline(_) | OutlineBody::Chain { .. } => Kind::File,
        OutlineBody::Directory(..) => Kind::Dir,
    }
}

/// The block that a chain is read from, its last one; of none, block 0.
fn head_of(blocks: &[u32]) -> u32
    ensures { result ≡ head_of blocks.now }
{
    blocks.last().copied().unwrap_or(0)
}

/// How a body is stored: a chain as its head and its size.
fn stored_body(alloc: Global, body: &OutlineBody) -> Result<Body, AllocError>
    ensures { IfOk result (λ stored. body_held stored ≡ stored_body (outline_body_held body.now)) }
{
    match body {
        OutlineBody::Inline(bytes) => Ok(Body::Inline(Vec::from_slice(alloc, bytes)?)),
        OutlineBody::Chain { blocks, size } => Ok(Body::Chain {
            head: head_of(blocks),
            size: *size,
        }),
        OutlineBody::Directory(first, second) => Ok(Body::Directory(*first, *second)),
    }
}

/// How an entry is stored.
pub(crate) fn stored_entry(alloc: Global, entry: &OutlineEntry) -> Result<Entry, AllocError>
    ensures { IfOk result (λ stored. stored ≡ stored_entry entry.now) }
{
    let body = stored_body(alloc, &entry.body)?;
    let attributes = copied_attributes(alloc, &entry.attributes)?;
    Ok(Entry {
        name: Vec::from_slice(alloc, &entry.name)?,
        kind: stored_kind(&entry.body),
        body,
        attributes,
    })
}

/// Puts entries, as they are stored, behind others.
fn add_stored(
    alloc: Global,
    entries: &[OutlineEntry],
    stored: &mut Vec<Entry>,
) -> Result<(), AllocError>
    ensures { OnOk result (stored.new.items ≡ stored.old.items ++ map stored_entry entries.now) }
{
    'each: for entry in entries {
        stored.push(stored_entry(alloc, entry)?)?;
    }
    Ok(())
}

/// The superblock of an outline.
#[tactic(auto, unfolding(lfs_law::specs::SuperblockBytes::volume_bytes))]
fn superblock_of(alloc: Global, outline: &Outline) -> Result<Entry, AllocError>
    requires { AreAttributes outline.now.limits.attribute outline.now.attributes }
    ensures { IfOk result (λ stored. stored ≡ superblock_entry (volume_bytes outline.now) outline.now.attributes) }
{
    let attributes = copied_attributes(alloc, &outline.attributes)?;
    superblock(
        alloc,
        outline.size,
        outline.count,
        outline.limits,
        attributes,
    )
}

/// The entries of a part of an outline, as they are stored: the superblock stands in front in the root's first part.
pub fn stored_entries(
    alloc: Global,
    outline: &Outline,
    part: &OutlinePart,
) -> Result<Vec<Entry>, AllocError>
    requires { AreAttributes outline.now.limits.attribute outline.now.attributes }
    ensures { IfOk result (λ stored. stored.items ≡ stored_entries (volume_bytes outline.now) outline.now.attributes part.now) }
{
    let mut stored = Vec::new(alloc);
    if part.pair.0 == ROOT.0 && part.pair.1 == ROOT.1 {
        stored.push(superblock_of(alloc, outline)?)?;
    }
    add_stored(alloc, &part.entries, &mut stored)?;
    Ok(stored)
}
