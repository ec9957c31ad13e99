//! An image with one superblock made of one whose superblock was expanded.

ghost use Rattle.std.specs.Prelude.{◌≡◌, true, IfOk, None, OnOk, map};
ghost use Rattle.lfs_lower.specs.Joined.{IsJoinedImage};
ghost use Rattle.lfs_lower.specs.Joining.{AreSuperblockParts, begins_so, last_in, led_parts, lowered_in, stripped};
ghost use Rattle.lfs_lower.specs.OneSuperblock.{is_header, lowered_entry};

use crate::alone::Rewrite;
use crate::header::lower_header;
use crate::putting::{all_can, put_parts};
use crate::superblocks::{is_superblock, superblock_parts};
use lfs_block::Blocks;
use lfs_meta::{Body, Entry, Part, parts_depend_on_their_blocks};
use std::alloc::{AllocError, Global};

// ---- superblocks taken off

/// Lowers a superblock to version 2.0.
fn lower_entry(entry: &mut Entry)
    requires { is_header entry.old.body ≡ true }
    ensures { entry.new ≡ lowered_entry entry.old }
{
    if let Body::Inline(bytes) = &mut entry.body {
        lower_header(bytes);
    }
}

/// Whether entries begin with a superblock.
fn begins_so(entries: &[Entry]) -> bool
    ensures { result ≡ begins_so entries.now }
{
    match entries.split_first() {
        Some((first, _)) => is_superblock(first),
        None => false,
    }
}

/// Takes the superblock off that a part begins with, if it begins with one. It is lowered.
fn take_superblock(part: &mut Part) -> Option<Entry>
    ensures taken { result ≡ lowered_in part.old }
    ensures stripped { part.new ≡ stripped part.old }
{
    if !begins_so(&part.entries) {
        return None;
    }
    let mut superblock = part.entries.remove(0);
    lower_entry(&mut superblock);
    Some(superblock)
}

/// Takes the superblocks off parts. The last of them, lowered.
fn take_superblocks(parts: &mut Vec<Part>) -> Option<Entry>
    ensures last { result ≡ last_in None parts.old.items }
    ensures stripped { parts.new.items ≡ map stripped parts.old.items }
{
    let mut last = None;
    for part in parts.iter_mut() {
        last = take_superblock(part).or(last);
    }
    last
}

/// Puts a superblock, if there is one, before the entries of the first part. Want of memory takes it.
fn lead_with(parts: &mut Vec<Part>, superblock: Option<Entry>) -> Result<(), AllocError>
    ensures { OnOk result (parts.new.items ≡ led_parts superblock parts.old.items) }
{
    let Some(superblock) = superblock else {
        return Ok(());
    };
    let Some(first) = parts.first_mut() else {
        return Ok(());
    };
    first.entries.insert(0, superblock)?;
    Ok(())
}

// ---- the image

/// The parts that the superblocks' pairs are to hold: each without the superblock that it begins with, and the last superblock before
/// the entries of the first.
fn joined_parts<B: Blocks>(alloc: Global, blocks: &B) -> Result<Vec<Part>, AllocError>
    ensures { IfOk result (λ parts. AreSuperblockParts (B.disk blocks.now) parts.items) }
{
    let mut parts = superblock_parts(alloc, blocks)?;
    let last = take_superblocks(&mut parts);
    lead_with(&mut parts, last)?;
    Ok(parts)
}

/// Joins the superblocks of an image of version 2.0, which a device may have expanded: the last one, lowered, stands in the place of the
/// first, and there is no other. Where a pair has no room for that, nothing is changed. The error is want of memory; some pairs may be
/// rewritten then. Takes memory.
pub fn join<B: Rewrite>(alloc: Global, image: &mut B) -> Result<(), AllocError>
    ensures { OnOk result (IsJoinedImage (B.disk image.old) (B.disk image.new)) }
{
    parts_depend_on_their_blocks();
    let parts = joined_parts(alloc, image)?;
    if all_can(&parts, image.size(), image.count()) {
        put_parts(alloc, image, &parts)?;
    }
    Ok(())
}
