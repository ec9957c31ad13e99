//! The parts that tidy an image.

ghost use Rattle.std.specs.Prelude.{◌≡◌, ◌==◌, ◌<◌, ◌&&◌, All, IfOk, not};
ghost use Rattle.std.specs.List.{filter};
ghost use Rattle.lfs_fs.specs.Gathering.{delta_from};
ghost use Rattle.lfs_fs.specs.Reading.{reading_of};
ghost use Rattle.lfs_settle.specs.Settled.{is_held};
ghost use Rattle.lfs_adopt.specs.Planned.{ArePlanned};

use crate::thread::{Thread, read_thread};
use crate::tidied_parts::tidied_parts;
use lfs_block::Blocks;
use lfs_lower::{all_can, part_at};
use lfs_meta::Part;
use lfs_settle::{have_no_state, is_kept, push_unless};
use std::alloc::{AllocError, Global};

// ---- parts that pairs hold already

/// Whether a pair holds a part already. Takes memory.
fn is_held<B: Blocks>(alloc: Global, blocks: &B, part: &Part) -> Result<bool, AllocError>
    requires first { part.now.0.0 < (B.disk blocks.now).count }
    requires second { part.now.0.1 < (B.disk blocks.now).count }
    ensures { IfOk result (λ held. held ≡ is_held (reading_of (B.disk blocks.now)) part.now) }
{
    match part_at(alloc, blocks, part.pair)? {
        Some(old) => Ok(is_kept(part, &old)),
        None => Ok(false),
    }
}

/// The parts that pairs don't hold already. Takes memory.
fn changed<B: Blocks>(alloc: Global, blocks: &B, parts: Vec<Part>) -> Result<Vec<Part>, AllocError>
    requires first { All (λ p. p.0.0 < (B.disk blocks.now).count) parts.items }
    requires second { All (λ p. p.0.1 < (B.disk blocks.now).count) parts.items }
    ensures { IfOk result (λ changed. changed.items ≡ filter (λ p. not (is_held (reading_of (B.disk blocks.now)) p)) parts.items) }
{
    let mut changed = Vec::new(alloc);
    'each: for part in parts {
        let held = is_held(alloc, blocks, &part)?;
        push_unless(&mut changed, part, held)?;
    }
    Ok(changed)
}

// ---- the plan

/// Whether a thread is whole, and the shares of the state along it cancel each other.
fn can_be_tidied(thread: &Thread) -> bool
    ensures { result ≡ (thread.now.is_whole && (delta_from thread.now.parts.items == 0)) }
{
    thread.is_whole && have_no_state(&thread.parts)
}

/// The parts that are to be put to tidy an image: none if its thread isn't whole, the shares of the state along it don't cancel each
/// other, or a pair has no room for what it is to hold. Takes memory.
pub(crate) fn parts_to_put<B: Blocks>(alloc: Global, blocks: &B) -> Result<Vec<Part>, AllocError>
    ensures { IfOk result (λ changed. ArePlanned (B.disk blocks.now) changed.items) }
{
    let thread = read_thread(alloc, blocks)?;
    if !can_be_tidied(&thread) {
        return Ok(Vec::new(alloc));
    }
    let parts = tidied_parts(alloc, thread.parts)?;
    let changed = changed(alloc, blocks, parts)?;
    if !all_can(&changed, blocks.size(), blocks.count()) {
        return Ok(Vec::new(alloc));
    }
    Ok(changed)
}
