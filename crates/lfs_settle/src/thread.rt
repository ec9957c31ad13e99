//! The parts along the thread of an image.

ghost use Rattle.std.specs.Prelude.{◌≡◌, ◌++◌, All, IfOk, OnOk, [], false, option_to_list};
ghost use Rattle.std.specs.List.{AllByRecursion};
ghost use Rattle.lfs_meta.specs.Complete.{IsComplete};
ghost use Rattle.lfs_lower.specs.LaterReading.{later_reading_of};
ghost use Rattle.lfs_settle.specs.Ended.{steps_along};
ghost use Rattle.lfs_settle.specs.InStep.{has_thread, stepping, thread_pairs, thread_parts};

use crate::ended::EndedStep;
use crate::steps::Steps;
use lfs_block::Blocks;
use lfs_fs::{ROOT, mark_all, next_pair};
use lfs_lower::later_part_at;
use lfs_meta::Part;
use std::alloc::{AllocError, Global};

/// A thread: its pairs, and the parts along it.
#[derive(Drop)]
pub(crate) struct Thread {
    /// The pairs, as far as it goes.
    pub(crate) pairs: Vec<(u32, u32)>,
    /// The parts of those that are read.
    pub(crate) parts: Vec<Part>,
    /// The steps of their tails.
    pub(crate) steps: Vec<EndedStep>,
    /// Whether all are read, and it ends after them.
    pub(crate) is_whole: bool,
}

/// A thread of which nothing is read.
fn nothing_read(alloc: Global) -> Thread
    ensures pairs { result.pairs.items ≡ [] }
    ensures parts { result.parts.items ≡ [] }
    ensures steps { result.steps.items ≡ [] }
    ensures whole { result.is_whole ≡ false }
{
    Thread {
        pairs: Vec::new(alloc),
        parts: Vec::new(alloc),
        steps: Vec::new(alloc),
        is_whole: false,
    }
}

/// Puts a step, if there is one, after others. Takes memory.
fn push_step(steps: &mut Vec<EndedStep>, step: Option<EndedStep>) -> Result<(), AllocError>
    ensures { OnOk result (steps.new.items ≡ steps.old.items ++ option_to_list step) }
{
    if let Some(step) = step {
        steps.push(step)?;
    }
    Ok(())
}

/// The thread as version 2.1 reads it, whose soft tails lead to the pairs that entries name: up to a pair that isn't read, and before one
/// that has a block past the end, or one that was named before. Takes memory.
pub(crate) fn read_thread<B: Blocks>(
    alloc: Global,
    blocks: &B,
    steps: &Steps,
) -> Result<Thread, AllocError>
    ensures pairs { IfOk result (λ thread. thread.pairs.items ≡ thread_pairs (stepping steps.now (later_reading_of (B.disk blocks.now)))) }
    ensures parts { IfOk result (λ thread. thread.parts.items ≡ thread_parts (stepping steps.now (later_reading_of (B.disk blocks.now)))) }
    ensures steps { IfOk result (λ thread. thread.steps.items ≡ steps_along steps.now (later_reading_of (B.disk blocks.now))) }
    ensures whole { IfOk result (λ thread. thread.is_whole ≡ has_thread (stepping steps.now (later_reading_of (B.disk blocks.now)))) }
    ensures complete { IfOk result (λ thread. All (λ p. AllByRecursion IsComplete p.1.entries) thread.parts.items) }
{
    let mut used = vec![in alloc; false; blocks.count() as usize]?;
    let table = used.as_mut_slice();
    let mut thread = nothing_read(alloc);
    let mut next = Some(ROOT);
    'walk: while let Some(pair) = next {
        if mark_all(table, &[pair.0, pair.1]).is_err() {
            return Ok(thread);
        }
        thread.pairs.push(pair)?;
        let Some(mut part) = later_part_at(alloc, blocks, pair)? else {
            return Ok(thread);
        };
        let step = steps.step(&mut part);
        push_step(&mut thread.steps, step)?;
        next = next_pair(part.tail);
        thread.parts.push(part)?;
    }
    thread.is_whole = true;
    Ok(thread)
}
