//! An image settled: what a device left unfinished is ended.

ghost use Rattle.std.specs.Prelude.{IfOk, OnOk};
ghost use Rattle.lfs_lower.specs.LaterReading.{later_reading_of};
ghost use Rattle.lfs_settle.specs.Ended.{Ends};
ghost use Rattle.lfs_settle.specs.Settled.{IsSettledImage};

use crate::ended::Ended;
use crate::lowering::lower_pairs;
use crate::planning::plan_of;
use lfs_block::Blocks;
use lfs_lower::{Rewrite, put_parts};
use lfs_meta::parts_depend_on_their_blocks;
use std::alloc::{AllocError, Global};

/// Settles an image, as the next change of a device does, and lowers it to version 2.0: the pairs that entries name are those of the
/// thread, the moved entry is gone, and so are the directories that no path leads to, and no state is left. Says what it ended: the move,
/// these directories, and the tails that led elsewhere than an entry. The pairs of the thread that stays are lowered, and all other blocks
/// stay. In each of those pairs the live block keeps its place and its revision, and the one beside it is erased; a pair of which both
/// versions read the same, and which holds its part already, stays as it is. If the thread isn't whole, the state isn't one that a device
/// ends, or a pair has no room for what it is to hold, the thread is lowered as it stands, as far as its pairs are read, and nothing is
/// ended. If memory is refused, some pairs may be rewritten, and the image is of no use. Takes memory.
pub fn settle<B: Rewrite>(alloc: Global, image: &mut B) -> Result<Ended, AllocError>
    ensures settled { OnOk result (IsSettledImage (B.disk image.old) (B.disk image.new)) }
    ensures ended { IfOk result (λ ended. Ends (later_reading_of (B.disk image.old)) ended) }
{
    parts_depend_on_their_blocks();
    let _fits_the_limits = image.size();
    let plan = plan_of(alloc, image)?;
    lower_pairs(alloc, image, &plan.pairs)?;
    put_parts(alloc, image, &plan.changed)?;
    Ok(plan.ended)
}

/// What is ended of what a device left unfinished, if an image is settled. Takes memory.
pub fn unfinished<B: Blocks>(alloc: Global, blocks: &B) -> Result<Ended, AllocError>
    ensures { IfOk result (Ends (later_reading_of (B.disk blocks.now))) }
{
    let plan = plan_of(alloc, blocks)?;
    Ok(plan.ended)
}
