//! The pairs along the thread of an image of version 2.0, their parts, and a flag for each of their blocks.

ghost use Rattle.std.specs.Prelude.{◌≡◌, ◌<◌, ℕ, All, IfOk, false, length, replicate};
ghost use Rattle.std.specs.List.{AllByRecursion};
ghost use Rattle.lfs_meta.specs.Complete.{IsComplete};
ghost use Rattle.lfs_fs.specs.Front.{pairs_name};
ghost use Rattle.lfs_fs.specs.Reading.{reading_of};
ghost use Rattle.lfs_settle.specs.InStep.{has_thread, thread_pairs, thread_parts};
ghost use Rattle.lfs_adopt.specs.Rewritten.{AreFlagged};

use lfs_block::Blocks;
use lfs_fs::{ROOT, mark_all, next_pair};
use lfs_lower::part_at;
use lfs_meta::Part;
use std::alloc::{AllocError, Global};

/// What is read along a thread.
#[derive(Drop)]
pub(crate) struct Thread {
    /// Its pairs, as far as it goes.
    pub(crate) pairs: Vec<(u32, u32)>,
    /// The parts of those that are read.
    pub(crate) parts: Vec<Part>,
    /// Whether all are read, and it ends after them.
    pub(crate) is_whole: bool,
}

/// The pairs along the thread, and their parts: up to a pair that isn't read, and before one that has a block past the end, or one that was
/// named before. Takes memory.
pub(crate) fn read_thread<B: Blocks>(alloc: Global, blocks: &B) -> Result<Thread, AllocError>
    ensures pairs { IfOk result (λ thread. thread.pairs.items ≡ thread_pairs (reading_of (B.disk blocks.now))) }
    ensures parts { IfOk result (λ thread. thread.parts.items ≡ thread_parts (reading_of (B.disk blocks.now))) }
    ensures whole { IfOk result (λ thread. thread.is_whole ≡ has_thread (reading_of (B.disk blocks.now))) }
    ensures complete { IfOk result (λ thread. All (λ p. AllByRecursion IsComplete p.1.entries) thread.parts.items) }
{
    let mut used = vec![in alloc; false; blocks.count() as usize]?;
    let table = used.as_mut_slice();
    let mut pairs = Vec::new(alloc);
    let mut parts = Vec::new(alloc);
    let mut next = Some(ROOT);
    'walk: while let Some(pair) = next {
        if mark_all(table, &[pair.0, pair.1]).is_err() {
            return Ok(Thread {
                pairs,
                parts,
                is_whole: false,
            });
        }
        pairs.push(pair)?;
        let Some(part) = part_at(alloc, blocks, pair)? else {
            return Ok(Thread {
                pairs,
                parts,
                is_whole: false,
            });
        };
        next = next_pair(part.tail);
        parts.push(part)?;
    }
    Ok(Thread {
        pairs,
        parts,
        is_whole: true,
    })
}

/// Sets the flags of the blocks of pairs.
fn flag_pairs(flags: &mut [bool], pairs: &[(u32, u32)])
    requires none { flags.old ≡ replicate (length flags.old) false }
    requires within { (b : ℕ) → 0 < pairs_name b pairs.now → b < length flags.old }
    ensures { AreFlagged (length flags.old) pairs.now flags.new }
{
    for pair in pairs {
        flags[pair.0 as usize] = true;
        flags[pair.1 as usize] = true;
    }
}

/// A table with a flag for each block of an image of version 2.0, which is set if the block is of a pair along the thread. Takes memory.
pub(crate) fn thread_table<B: Blocks>(alloc: Global, blocks: &B) -> Result<Vec<bool>, AllocError>
    ensures { IfOk result (λ flags. AreFlagged (B.disk blocks.now).count (thread_pairs (reading_of (B.disk blocks.now))) flags.items) }
{
    let thread = read_thread(alloc, blocks)?;
    let mut flags = vec![in alloc; false; blocks.count() as usize]?;
    flag_pairs(&mut flags, &thread.pairs);
    Ok(flags)
}
