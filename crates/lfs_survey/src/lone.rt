//! Surveying blocks by themselves.

ghost use Rattle.std.specs.Prelude.{◌≡◌, length, IfOk, OnOk};
ghost use Rattle.lfs_survey.specs.Looking.{Grows};
ghost use Rattle.lfs_survey.specs.Lone.{AreAlong, AreLone, NoneIsLeft};

use crate::area::Area;
use crate::lone_pairs::{find_lone, unmarked_of};
use crate::surveying_all::{add_areas, tails_of};
use lfs_block::Blocks;
use std::alloc::{AllocError, Global};

/// An area for each of these pairs, and for each pair at which the thread goes on behind what is found, that is open when it is come to.
fn areas_along<B: Blocks>(
    alloc: Global,
    blocks: &B,
    looked: &mut [bool],
    starts: &[(u32, u32)],
) -> Result<Vec<Area>, AllocError>
    requires len { length looked.old ≡ (B.disk blocks.now).count }
    ensures areas { IfOk result (λ areas. AreAlong (B.disk blocks.now) looked.old looked.new starts.now areas.items) }
    ensures len { OnOk result (length looked.new ≡ length looked.old) }
    ensures grows { OnOk result (Grows looked.old looked.new) }
{
    let mut areas = Vec::new(alloc);
    add_areas(alloc, blocks, looked, &mut areas, starts)?;
    let mut next = 0;
    'areas: while next < areas.len() {
        let tails = tails_of(alloc, &areas[next])?;
        add_areas(alloc, blocks, looked, &mut areas, &tails)?;
        next += 1;
    }
    Ok(areas)
}

/// What is found of blocks by themselves: of all that a table says are neither looked at nor in use, each as both blocks of a pair. First
/// from those on that no entry and no tail of another one names, since they lead to the others as whole pairs, of which the live block is
/// chosen, and on along the thread behind them; then from those that are left. Behind it each block is one that the table says is looked
/// at, or holds no part by itself. Takes memory.
pub fn lone_areas<B: Blocks>(
    alloc: Global,
    blocks: &B,
    looked: &mut [bool],
) -> Result<Vec<Area>, AllocError>
    requires len { length looked.old ≡ (B.disk blocks.now).count }
    ensures areas { IfOk result (λ areas. AreLone (B.disk blocks.now) looked.old looked.new areas.items) }
    ensures complete { IfOk result (λ areas. NoneIsLeft (B.disk blocks.now) looked.new) }
{
    let mut named = vec![in alloc; false; blocks.count() as usize]?;
    let lone = find_lone(alloc, blocks, looked, &mut named)?;
    let unnamed = unmarked_of(alloc, &lone, &named)?;
    let mut areas = areas_along(alloc, blocks, looked, &unnamed)?;
    let mut left = areas_along(alloc, blocks, looked, &lone)?;
    areas.append(&mut left)?;
    Ok(areas)
}
