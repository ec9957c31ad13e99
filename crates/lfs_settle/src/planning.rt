//! What settles an image: pairs to lower, and parts that some of them are to hold.

ghost use Rattle.std.specs.Prelude.{◌≡◌, ◌<◌, ◌&&◌, ◌++◌, ◌∷◌, [], All, IfOk, IfNone, IfSome, OnOk, cond, false, map, not, true};
ghost use Rattle.std.specs.List.{AllByRecursion, filter};
ghost use Rattle.lfs_meta.specs.Complete.{IsComplete};
ghost use Rattle.lfs_fs.specs.Gathering.{delta_from};
ghost use Rattle.lfs_lower.specs.LaterReading.{later_reading_of};
ghost use Rattle.lfs_settle.specs.Ended.{Ends, steps_of};
ghost use Rattle.lfs_settle.specs.InStep.{has_thread, in_step, pairs_named, thread_pairs, thread_parts};
ghost use Rattle.lfs_settle.specs.Moved.{can_end};
ghost use Rattle.lfs_settle.specs.Planned.{IsPlan};
ghost use Rattle.lfs_settle.specs.Settled.{can_settle, is_held, is_kept, same_tail};

use crate::ended::Ended;
use crate::moved::{can_end, state_of};
use crate::pairs::pairs_named;
use crate::settled_parts::settled_parts;
use crate::steps::Steps;
use crate::thread::{Thread, read_thread};
use lfs_block::Blocks;
use lfs_lower::{all_can, later_part_at};
use lfs_meta::{Part, Tail};
use std::alloc::{AllocError, Global};

/// What settles an image.
#[derive(Drop)]
pub(crate) struct Plan {
    /// The pairs that stay. They are lowered.
    pub(crate) pairs: Vec<(u32, u32)>,
    /// The parts that some of them don't hold yet. They are put there.
    pub(crate) changed: Vec<Part>,
    /// What is ended so.
    pub(crate) ended: Ended,
}

// ---- parts that pairs hold already

fn same_tail(one: Tail, other: Tail) -> bool
    ensures { result ≡ same_tail one other }
{
    match (one, other) {
        (Tail::End, Tail::End) => true,
        (Tail::Soft(a, b), Tail::Soft(c, d)) => a == c && b == d,
        (Tail::Hard(a, b), Tail::Hard(c, d)) => a == c && b == d,
        _ => false,
    }
}

/// Whether a settled part is as it was: it has as many entries, the same tail and the same share.
pub fn is_kept(part: &Part, old: &Part) -> bool
    ensures { result ≡ is_kept part.now.1 old.now.1 }
{
    part.entries.len() == old.entries.len()
        && same_tail(part.tail, old.tail)
        && part.delta.as_slice() == old.delta.as_slice()
}

/// Whether a pair holds a part already. Takes memory.
fn is_held<B: Blocks>(alloc: Global, blocks: &B, part: &Part) -> Result<bool, AllocError>
    requires first { part.now.0.0 < (B.disk blocks.now).count }
    requires second { part.now.0.1 < (B.disk blocks.now).count }
    ensures { IfOk result (λ held. held ≡ is_held (later_reading_of (B.disk blocks.now)) part.now) }
{
    match later_part_at(alloc, blocks, part.pair)? {
        Some(old) => Ok(is_kept(part, &old)),
        None => Ok(false),
    }
}

/// Puts a part after others, unless it is held already. Takes memory.
pub fn push_unless(changed: &mut Vec<Part>, part: Part, held: bool) -> Result<(), AllocError>
    ensures { OnOk result (changed.new.items ≡ changed.old.items ++ cond (not held) (part ∷ []) []) }
{
    if !held {
        changed.push(part)?;
    }
    Ok(())
}

/// The parts that pairs don't hold already. Takes memory.
fn changed<B: Blocks>(alloc: Global, blocks: &B, parts: Vec<Part>) -> Result<Vec<Part>, AllocError>
    requires first { All (λ p. p.0.0 < (B.disk blocks.now).count) parts.items }
    requires second { All (λ p. p.0.1 < (B.disk blocks.now).count) parts.items }
    ensures { IfOk result (λ changed. changed.items ≡ filter (λ p. not (is_held (later_reading_of (B.disk blocks.now)) p)) parts.items) }
{
    let mut changed = Vec::new(alloc);
    'each: for part in parts {
        let held = is_held(alloc, blocks, &part)?;
        push_unless(&mut changed, part, held)?;
    }
    Ok(changed)
}

/// The pairs of parts. Takes memory.
fn pairs_of(alloc: Global, parts: &[Part]) -> Result<Vec<(u32, u32)>, AllocError>
    ensures { IfOk result (λ pairs. pairs.items ≡ map (λ p. p.0) parts.now) }
{
    let mut pairs = Vec::new(alloc);
    for part in parts {
        pairs.push(part.pair)?;
    }
    Ok(pairs)
}

// ---- the plan

/// Whether a thread is whole, and its state one that a device ends.
fn can_be_ended(thread: &Thread) -> bool
    ensures { result ≡ (thread.now.is_whole && can_end (delta_from thread.now.parts.items) thread.now.parts.items) }
{
    thread.is_whole && can_end(&state_of(&thread.parts), &thread.parts)
}

/// What settles an image of this thread in step, which is whole and has a state that a device ends; `None` if a pair has no room for what
/// it is to hold. Takes memory.
fn ending_plan<B: Blocks>(
    alloc: Global,
    blocks: &B,
    thread: Thread,
) -> Result<Option<Plan>, AllocError>
    requires along { thread.parts.items ≡ thread_parts (in_step (later_reading_of (B.disk blocks.now))) }
    requires steps { thread.steps.items ≡ steps_of (later_reading_of (B.disk blocks.now)) }
    requires complete { All (λ p. AllByRecursion IsComplete p.1.entries) thread.parts.items }
    requires ended { (has_thread (in_step (later_reading_of (B.disk blocks.now)))
        && can_end (delta_from thread.parts.items) thread.parts.items) ≡ true }
    ensures none { IfOk result (λ plan. IfNone plan
        (can_settle (later_reading_of (B.disk blocks.now)) (in_step (later_reading_of (B.disk blocks.now))) ≡ false)) }
    ensures some { IfOk result (λ plan. IfSome plan (λ p. IsPlan (B.disk blocks.now) p.pairs.items p.changed.items)) }
    ensures ended { IfOk result (λ plan. IfSome plan (λ p. Ends (later_reading_of (B.disk blocks.now)) p.ended)) }
{
    let (parts, ended) = settled_parts(alloc, thread.parts, thread.steps)?;
    let pairs = pairs_of(alloc, &parts)?;
    let changed = changed(alloc, blocks, parts)?;
    if all_can(&changed, blocks.size(), blocks.count()) {
        return Ok(Some(Plan {
            pairs,
            changed,
            ended,
        }));
    }
    Ok(None)
}

/// The pairs of the thread as it stands, and those that the entries along it name. Takes memory.
fn as_it_stands<B: Blocks>(
    alloc: Global,
    blocks: &B,
) -> Result<(Vec<(u32, u32)>, Steps), AllocError>
    ensures pairs { IfOk result (λ found. found.0.items ≡ thread_pairs (later_reading_of (B.disk blocks.now))) }
    ensures steps { IfOk result (λ found. found.1 ≡ pairs_named (thread_parts (later_reading_of (B.disk blocks.now)))) }
{
    let none = Steps::of(alloc, Vec::new(alloc))?;
    let thread = read_thread(alloc, blocks, &none)?;
    let named = pairs_named(alloc, &thread.parts)?;
    let steps = Steps::of(alloc, named)?;
    Ok((thread.pairs, steps))
}

/// What settles an image: if its thread, each directory at the pair that its entry names, is whole, its state is one that a device ends,
/// and there is room, what a device's next change leaves; else its thread as it stands. With what is ended so. Takes memory.
pub(crate) fn plan_of<B: Blocks>(alloc: Global, blocks: &B) -> Result<Plan, AllocError>
    ensures plan { IfOk result (λ plan. IsPlan (B.disk blocks.now) plan.pairs.items plan.changed.items) }
    ensures ended { IfOk result (λ plan. Ends (later_reading_of (B.disk blocks.now)) plan.ended) }
{
    let (pairs, steps) = as_it_stands(alloc, blocks)?;
    let thread = read_thread(alloc, blocks, &steps)?;
    if can_be_ended(&thread) {
        if let Some(plan) = ending_plan(alloc, blocks, thread)? {
            return Ok(plan);
        }
    }
    let changed = Vec::new(alloc);
    let ended = Ended::nothing(alloc);
    Ok(Plan {
        pairs,
        changed,
        ended,
    })
}
