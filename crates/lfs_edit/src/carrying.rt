//! Commands that are carried out on an outline, without an image.

ghost use Rattle.std.specs.Prelude.{◌≡◌, ◌+◌, ◌<◌, ◌≤◌, ◌^◌, ◌⊎◌, ℕ, Bool, List, None, Some, nat_lt, length, take, sum_by, IfOk, IfErr, OnOk};
ghost use Rattle.std.specs.List.{filter};
ghost use Rattle.std.specs.Option.{option_or};
ghost use Rattle.lfs_block.specs.Geometry.{IsBlockSize};
ghost use Rattle.lfs_fs.specs.Sound.{IsSound};
ghost use Rattle.lfs_fs.specs.Table.{IsTableOf};
ghost use Rattle.lfs_fs.specs.Unused.{unused};
ghost use Rattle.lfs_fs.specs.Uses.{times};
ghost use Rattle.lfs_fs.specs.Volume.{Volume};
ghost use Rattle.lfs_command.specs.AskedFor.{contents_len, named_command};
ghost use Rattle.lfs_command.specs.Clean.{IsClean, clean};
ghost use Rattle.lfs_command.specs.Command.{Command, HasNames};
ghost use Rattle.lfs_command.specs.Cut.{runs};
ghost use Rattle.lfs_command.specs.Freed.{freed_uses};
ghost use Rattle.lfs_command.specs.Growth.{grown};
ghost use Rattle.lfs_command.specs.Leading.{leading_pair};
ghost use Rattle.lfs_command.specs.Need.{dirty_parts, part_blocks};
ghost use Rattle.lfs_command.specs.Supplies.{Supplies};
ghost use Rattle.lfs_command.specs.Verdict.{first_refusal, verdict};
ghost use Rattle.lfs_command.specs.declared.refusal.Refusal.TheVariants.{Memory};
ghost use Rattle.lfs_law.specs.EditedOutline.{edited_outline};
ghost use Rattle.lfs_law.specs.Lengthened.{with_count};
ghost use Rattle.lfs_law.specs.TablesFollow.{LeadsToTable};
ghost use Rattle.lfs_draft.specs.Editable.{IsEditable};
ghost use Rattle.lfs_draft.specs.LeastSupplies.{least_supplies};
ghost use Rattle.lfs_cut.specs.Chosen.{HasPairsOnce};
ghost use Rattle.lfs_cut.specs.Front.{IsCleanFrom};
ghost use Rattle.lfs_cut.specs.RoomChecks.{room_checks_on};
ghost use Rattle.lfs_edit.specs.Carried.{IsCarriedOnOutline, IsCutOver, IsCutReady, IsJudged, IsLed, IsOutlined};

use crate::carried::Carried;
use crate::carrying_laws::carrying_laws;
use lfs_command::{Named, Refusal, count_after, data_blocks, directory_blocks};
use lfs_cut::{choose, clean, cut, needed};
use lfs_draft::{count_in_front, edit, freed_blocks, judge, leading_pair, least_supplies};
use lfs_fs::{Outline, UsedBlocks, names_are_ordered, outlines_are_sound};
use lfs_law::{counts_grow, needs_are_small, tables_follow};
use std::alloc::{AllocError, Global};

/// The blocks that an outline uses, of so many. Where memory is wanting, the outline is of no use.
fn used_of(alloc: Global, outline: &mut Outline, count: u32) -> Result<UsedBlocks, AllocError>
    requires { IsSound (with_count count outline.old) }
    ensures table { IfOk result (λ used. IsTableOf (with_count count outline.old) used) }
    ensures same { OnOk result (outline.new ≡ outline.old) }
{
    let before = outline.count;
    outline.count = count;
    let used = outline.used_blocks(alloc)?;
    outline.count = before;
    Ok(used)
}

/// Makes the table of the blocks that an outline uses one of so many: where the outline has as many, it is, else they are counted anew.
/// Where memory is wanting, the outline is of no use.
fn lengthen(
    alloc: Global,
    outline: &mut Outline,
    used: &mut UsedBlocks,
    count: u32,
) -> Result<(), AllocError>
    requires sound { IsSound (with_count count outline.old) }
    requires table { IsTableOf outline.old used.old }
    ensures table { OnOk result (IsTableOf (with_count count outline.old) used.new) }
    ensures same { OnOk result (outline.new ≡ outline.old) }
{
    if count == outline.count {
        return Ok(());
    }
    *used = used_of(alloc, outline, count)?;
    Ok(())
}

/// What a command makes of an outline with the least free blocks. Where memory is wanting, the outline is of no use.
fn edit_least(
    alloc: Global,
    outline: &mut Outline,
    command: &Named<'_>,
    used: &UsedBlocks,
) -> Result<(), AllocError>
    requires editable { IsEditable outline.old (named_command command.now) }
    requires size { IsBlockSize outline.old.size }
    requires len { contents_len command.now < 2 ^ 32 }
    ensures { OnOk result (outline.new
        ≡ edited_outline outline.old (named_command command.now) (least_supplies outline.old (named_command command.now) (unused used.now))) }
{
    let count = data_blocks(outline.size, command);
    let supplies = least_supplies(alloc, used, count)?;
    edit(alloc, outline, command, supplies)?;
    Ok(())
}

/// The least free blocks, as many as a command needs: `EntryTooLarge` where some part that is set has an entry that weighs more than a
/// block has room for, else `NoSpace` where fewer are free.
fn needed_blocks(
    alloc: Global,
    outline: &Outline,
    front: usize,
    made: u32,
    used: &UsedBlocks,
) -> Result<Vec<u32>, Refusal>
    requires size { outline.now.size ≤ 65536 }
    requires front { IsCleanFrom front outline.now.directories }
    requires small { made + sum_by (part_blocks outline.now) (dirty_parts outline.now) < 2 ^ 32 }
    ensures blocks { IfOk result (λ blocks. blocks.items ≡ take (made + sum_by (part_blocks outline.now) (dirty_parts outline.now)) (unused used.now)) }
    ensures unrefused { OnOk result (first_refusal (room_checks_on outline.now made (unused used.now)) ≡ None) }
    ensures refused { IfErr result (λ r. (r ≡ Memory) ⊎ (first_refusal (room_checks_on outline.now made (unused used.now)) ≡ Some r)) }
{
    let need = needed(outline, front, made, used)?;
    used.lowest_free(alloc, need).ok_or(Refusal::Memory)
}

/// Cuts the parts of an outline that are set, into pairs of new blocks, of which the part of the pair `leading` gets the first. Want of
/// memory leaves the outline of no use.
fn cut_over(
    alloc: Global,
    outline: &mut Outline,
    front: usize,
    leading: Option<(u32, u32)>,
    blocks: &[u32],
) -> Result<(), AllocError>
    requires size { outline.old.size ≤ 65536 }
    requires front { IsCleanFrom front outline.old.directories }
    requires needed { length blocks.now ≡ sum_by (part_blocks outline.old) (dirty_parts outline.old) }
    requires once { HasPairsOnce outline.old }
    requires few { length (filter (λ p. nat_lt 1 (length (runs outline.old p))) (dirty_parts outline.old)) ≤ 2 }
    ensures cut { OnOk result (IsCutOver leading outline.old blocks.now outline.new) }
    ensures front { OnOk result (IsCleanFrom front outline.new.directories) }
{
    let rows = choose(alloc, outline, front, leading, blocks)?;
    cut(alloc, outline, front, &rows)?;
    Ok(())
}

/// The pair that leads: that of the part that had the entry at the command's path before, else of the one that has it in the edited
/// outline, which is sound.
fn leader(before: Option<(u32, u32)>, outline: &Outline, command: &Named<'_>) -> Option<(u32, u32)>
    requires { IsSound outline.now }
    ensures { result ≡ option_or before (leading_pair outline.now (named_command command.now)) }
{
    match before {
        Some(pair) => Some(pair),
        None => leading_pair(outline, command),
    }
}

/// Cuts an outline that is ready, into pairs of those of the blocks that the command doesn't take for what it makes. Where memory is
/// wanting, the outline is of no use.
fn cut_ready(
    alloc: Global,
    outline: &mut Outline,
    front: usize,
    blocks: &[u32],
    made: u32,
    leading: Option<(u32, u32)>,
) -> Result<(), AllocError>
    requires led { (v : Volume) × (c : Command) × (used : List Bool) × IsLed v c used blocks.now made outline.old leading }
    requires front { IsCleanFrom front outline.old.directories }
    ensures cut { OnOk result ((v : Volume) (c : Command) (used : List Bool) → IsLed v c used blocks.now made outline.old leading
        → IsCutReady v c used blocks.now outline.new) }
    ensures front { OnOk result (IsCleanFrom front outline.new.directories) }
{
    carrying_laws();
    let (_, new) = blocks.split_at(made as usize);
    cut_over(alloc, outline, front, leading, new)?;
    Ok(())
}

/// Edits and cuts an outline on which no check refuses a command, those on room aside: `EntryTooLarge` where some part that it sets then
/// has an entry that weighs more than a block has room for, else `NoSpace` where fewer blocks are free than it needs. The blocks that the
/// command takes. Where it is refused, the outline is of no use. `Memory` says only that a growth was refused.
fn carry_over(
    alloc: Global,
    outline: &mut Outline,
    front: usize,
    command: &Named<'_>,
    used: &UsedBlocks,
) -> Result<Vec<u32>, Refusal>
    requires judged { (v : Volume) × IsJudged v (named_command command.now) outline.old }
    requires front { (s : Supplies) → IsClean outline.old
        → IsCleanFrom front (edited_outline outline.old (named_command command.now) s).directories }
    requires table { IsTableOf (grown (named_command command.now) outline.old) used.now }
    ensures cut { IfOk result (λ blocks. (v : Volume) → IsJudged v (named_command command.now) outline.old
        → IsCutReady v (named_command command.now) used.now blocks.items outline.new) }
    ensures front { OnOk result (IsCleanFrom front outline.new.directories) }
    ensures refused { IfErr result (λ r. (r ≡ Memory)
        ⊎ ((v : Volume) → IsJudged v (named_command command.now) outline.old → verdict v (named_command command.now) ≡ Some r)) }
{
    carrying_laws();
    outlines_are_sound();
    names_are_ordered();
    needs_are_small();
    let size = outline.size;
    let before = leading_pair(outline, command);
    edit_least(alloc, outline, command, used)?;
    let made = data_blocks(size, command) + directory_blocks(command);
    let blocks = needed_blocks(alloc, outline, front, made, used)?;
    let leading = leader(before, outline, command);
    cut_ready(alloc, outline, front, &blocks, made, leading)?;
    Ok(blocks)
}

/// The same, with the table of the blocks that the outline uses, which gets as many blocks as the command leaves, and with the blocks that
/// the command gives back. Where it is refused, outline and table are of no use.
pub(crate) fn carry_judged(
    alloc: Global,
    outline: &mut Outline,
    used: &mut UsedBlocks,
    command: &Named<'_>,
) -> Result<Carried, Refusal>
    requires judged { (v : Volume) × IsJudged v (named_command command.now) outline.old }
    requires table { IsTableOf outline.old used.old }
    ensures cut { IfOk result (λ carried. (v : Volume) → IsJudged v (named_command command.now) outline.old
        → IsCutReady v (named_command command.now) used.new carried.blocks.items outline.new) }
    ensures gone { IfOk result (λ carried. (b : ℕ) → times b carried.gone.items ≡ freed_uses outline.old (named_command command.now) b) }
    ensures front { IfOk result (λ carried. IsCleanFrom carried.front outline.new.directories) }
    ensures table { OnOk result (IsTableOf (grown (named_command command.now) outline.old) used.new) }
    ensures refused { IfErr result (λ r. (r ≡ Memory)
        ⊎ ((v : Volume) → IsJudged v (named_command command.now) outline.old → verdict v (named_command command.now) ≡ Some r)) }
{
    outlines_are_sound();
    names_are_ordered();
    counts_grow();
    let front = count_in_front(outline, command);
    let count = count_after(command, outline.count);
    lengthen(alloc, outline, used, count)?;
    let gone = freed_blocks(alloc, outline, command)?;
    let blocks = carry_over(alloc, outline, front, command, used)?;
    Ok(Carried {
        blocks,
        gone,
        front,
    })
}

/// Takes the marks of a command off an outline that is cut, and makes the table of used blocks that of what the command leaves.
pub(crate) fn settle(outline: &mut Outline, used: &mut UsedBlocks, carried: &Carried)
    requires table { LeadsToTable used.old carried.now.blocks.items carried.now.gone.items (clean outline.old) }
    requires front { IsCleanFrom carried.now.front outline.old.directories }
    ensures outline { outline.new ≡ clean outline.old }
    ensures table { IsTableOf (clean outline.old) used.new }
{
    clean(outline, carried.front);
    used.take(&carried.blocks);
    used.give_back(&carried.gone);
}

/// Carries out a command on the outline of a volume, and on the table of the blocks that it uses: they become those of what the command
/// leaves. Refusals are as of `carry_out`. Where it is refused, outline and table are of no use.
pub fn carry(
    alloc: Global,
    outline: &mut Outline,
    used: &mut UsedBlocks,
    command: &Named<'_>,
) -> Result<Carried, Refusal>
    requires outline { (v : Volume) × IsOutlined v outline.old }
    requires table { IsTableOf outline.old used.old }
    requires names { HasNames (named_command command.now) }
    ensures carried { IfOk result (λ carried. (v : Volume) → IsOutlined v outline.old
        → IsCarriedOnOutline v (named_command command.now) carried.blocks.items carried.gone.items outline.new) }
    ensures table { OnOk result (IsTableOf outline.new used.new) }
    ensures refused { IfErr result (λ r. (r ≡ Memory)
        ⊎ ((v : Volume) → IsOutlined v outline.old → verdict v (named_command command.now) ≡ Some r)) }
{
    carrying_laws();
    outlines_are_sound();
    tables_follow();
    judge(outline, command)?;
    let carried = carry_judged(alloc, outline, used, command)?;
    settle(outline, used, &carried);
    Ok(carried)
}
