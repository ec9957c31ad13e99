//! Surveying an image from one pair on.

ghost use Rattle.std.specs.Prelude.{◌≡◌, length, IfOk};
ghost use Rattle.lfs_survey.specs.Area.{IsArea, looked_after};

use crate::area::Area;
use crate::call::Call;
use crate::calling::call_all;
use crate::looking::look_at;
use crate::way::Way;
use lfs_block::Blocks;
use std::alloc::{AllocError, Global};

/// What is found from a pair on: there, and at each pair that what is found leads to, by an entry that is a directory or by a hard tail,
/// in the order in which they are come to. The blocks that were looked at aren't looked at again. Takes memory.
pub fn survey_from<B: Blocks>(
    alloc: Global,
    blocks: &B,
    looked: &mut [bool],
    start: (u32, u32),
) -> Result<Area, AllocError>
    requires len { length looked.old ≡ (B.disk blocks.now).count }
    ensures area { IfOk result (IsArea (B.disk blocks.now) looked.old start) }
    ensures looked { IfOk result (λ a. looked.new ≡ looked_after looked.old a.calls.items a.found.items) }
{
    let mut calls = Vec::new(alloc);
    calls.push(Call {
        way: Way::Start,
        pair: start,
    })?;
    let mut found = Vec::new(alloc);
    'looking: while found.len() < calls.len() {
        let from = found.len();
        let here = look_at(alloc, blocks, looked, calls[from].pair)?;
        call_all(&mut calls, from, &here)?;
        found.push(here)?;
    }
    Ok(Area { calls, found })
}
