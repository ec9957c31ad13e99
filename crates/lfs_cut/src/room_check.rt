//! Whether there is room for what a command leaves.

ghost use Rattle.std.specs.Prelude.{◌≡◌, ◌+◌, ◌<◌, ◌≤◌, ◌^◌, None, Some, sum_by, IfOk, IfErr, OnOk};
ghost use Rattle.lfs_fs.specs.Unused.{unused};
ghost use Rattle.lfs_cut.specs.Front.{IsCleanFrom};
ghost use Rattle.lfs_cut.specs.RoomChecks.{room_checks_on};
ghost use Rattle.lfs_command.specs.Need.{dirty_parts, part_blocks};
ghost use Rattle.lfs_command.specs.Verdict.{first_refusal};

use crate::new_blocks::new_blocks;
use crate::set_parts::has_too_large;
use lfs_command::Refusal;
use lfs_fs::{Outline, UsedBlocks};

/// How many blocks a command needs: those that it takes for what it makes, and those of the new parts of the outline that it leaves.
/// `EntryTooLarge` where some part that is set has an entry that weighs more than a block has room for, else `NoSpace` where fewer blocks
/// are free.
pub fn needed(outline: &Outline, front: usize, made: u32, used: &UsedBlocks) -> Result<u32, Refusal>
    requires size { outline.now.size ≤ 65536 }
    requires front { IsCleanFrom front outline.now.directories }
    requires small { made + sum_by (part_blocks outline.now) (dirty_parts outline.now) < 2 ^ 32 }
    ensures need { IfOk result (λ need. need ≡ made + sum_by (part_blocks outline.now) (dirty_parts outline.now)) }
    ensures unrefused { OnOk result (first_refusal (room_checks_on outline.now made (unused used.now)) ≡ None) }
    ensures refused { IfErr result (λ r. first_refusal (room_checks_on outline.now made (unused used.now)) ≡ Some r) }
{
    if has_too_large(outline, front) {
        return Err(Refusal::EntryTooLarge);
    }
    let need = made + new_blocks(outline, front) as u32;
    let free = used.free_count();
    if need > free {
        return Err(Refusal::NoSpace { need, free });
    }
    Ok(need)
}
