//! Which of the new blocks become the pairs of which new parts.

ghost use Rattle.std.specs.Prelude.{◌≡◌, ℕ, ◌*◌, ◌≤◌, All, nat_lt, length, map, flat_map, sum_by, IfOk};
ghost use Rattle.std.specs.List.{filter};
ghost use Rattle.lfs_fs.specs.Directory.{thread};
ghost use Rattle.lfs_fs.specs.Uses.{times};
ghost use Rattle.lfs_cut.specs.Front.{IsCleanFrom};
ghost use Rattle.lfs_cut.specs.Chosen.{ArePairRows, HasPairsOnce, chosen_for};
ghost use Rattle.lfs_command.specs.Cut.{HasEnough, new_pair_uses, runs};
ghost use Rattle.lfs_command.specs.Need.{dirty_parts, part_blocks};
ghost use Rattle.lfs_command.specs.Ordered.{blocks_chosen, overflowing, overflowing_led};

use crate::block_room::block_room;
use crate::front::in_front;
use crate::new_pairs::{NewPairs, pairs_of};
use crate::overflow::{Overflow, overflows_of, put_first};
use arrayvec::ArrayVec;
use lfs_fs::Outline;
use std::alloc::{AllocError, Global};

/// A row for each part that overflows, in order, whose pairs are the next of the blocks two by two.
fn rows_of(
    alloc: Global,
    overflows: &[Overflow],
    blocks: &[u32],
) -> Result<ArrayVec<NewPairs, 2, Global>, AllocError>
    requires few { length overflows.now ≤ 2 }
    requires enough { sum_by (λ g. 2 * g.len) overflows.now ≡ length blocks.now }
    ensures { IfOk result (λ rows. ArePairRows overflows.now blocks.now rows.items) }
{
    let mut rows = ArrayVec::new_in(alloc);
    let mut left = blocks;
    'each: for overflow in overflows {
        let (own, others) = left.split_at(2 * overflow.len);
        rows.push(NewPairs {
            pair: overflow.pair,
            pairs: pairs_of(alloc, own, overflow.len)?,
        });
        left = others;
    }
    Ok(rows)
}

/// The pairs for the new parts of an outline: a row for each part that is set and has more than one run, that of the pair
/// `leading` first, then in the order of the thread. The pairs of all rows are the blocks two by two in order.
pub fn choose(
    alloc: Global,
    outline: &Outline,
    front: usize,
    leading: Option<(u32, u32)>,
    blocks: &[u32],
) -> Result<ArrayVec<NewPairs, 2, Global>, AllocError>
    requires size { outline.now.size ≤ 65536 }
    requires front { IsCleanFrom front outline.now.directories }
    requires needed { length blocks.now ≡ sum_by (part_blocks outline.now) (dirty_parts outline.now) }
    requires once { HasPairsOnce outline.now }
    requires few { length (filter (λ p. nat_lt 1 (length (runs outline.now p))) (dirty_parts outline.now)) ≤ 2 }
    ensures enough { IfOk result (λ rows. All (HasEnough (chosen_for rows.items) outline.now) (thread outline.now.directories)) }
    ensures ordered { IfOk result (λ rows. blocks_chosen (chosen_for rows.items) (overflowing_led leading outline.now) ≡ blocks.now) }
    ensures uses { IfOk result (λ rows. (b : ℕ) → new_pair_uses (chosen_for rows.items) outline.now b ≡ times b blocks.now) }
{
    let room = block_room(outline);
    let mut overflows = overflows_of(room, in_front(&outline.directories, front));
    put_first(&mut overflows, leading);
    let rows = rows_of(alloc, &overflows, blocks)?;
    Ok(rows)
}
