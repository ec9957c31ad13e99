//! Laws of commands: each function does nothing but call laws, and its contract is the law.

ghost use Rattle.lfs_law.specs.CommandsSet.{CommandsSetAPart};
ghost use Rattle.lfs_law.specs.CountsGrow.{CountsGrow};
ghost use Rattle.lfs_law.specs.Laws.{CleansFollow, CommandsAreFrugal, CommandsFollow, CommandsLeadOneWay, CutsAreFrugal, CutsFollow, FewPartsChange, FreeAfter, FreeAfterHeld, NeedIsExact, NeedIsTheSame, UsesAfter};
ghost use Rattle.lfs_law.specs.NeedsSmall.{HeldHaveFewEntries, NeedsAreSmall};
ghost use Rattle.lfs_law.specs.TablesFollow.{TablesFollow};
ghost use Rattle.lfs_law.specs.Written.{HeldAreClean, WrittenAreHeld};

use lfs_file::chains_stay_on_their_blocks;
use lfs_fs::{both_sides_hold, entries_are_cut_greedily, names_are_ordered, stored_links_stay};
use lfs_meta::{held_parts_have_few_entries, parts_depend_on_their_blocks};

/// A law: on a sound volume, a command that no check refuses, on supplies that are free, leaves a sound volume of the same size
/// and limits, with as many blocks as the command says, whose tree is the command's equation at every path.
pub fn commands_follow()
    ensures { CommandsFollow }
{
    names_are_ordered();
}

/// A law: a command that no check refuses, those on room aside, leaves no fewer blocks, and as many as an image may have.
pub fn counts_grow()
    ensures { CountsGrow }
{}

/// A law: so it is when the parts that the command sets are cut, into pairs that were free (`cut`), and when its marks are
/// taken off (`clean`).
pub fn cuts_follow()
    ensures cut { CutsFollow }
    ensures clean { CleansFollow }
{
    names_are_ordered();
    entries_are_cut_greedily();
}

/// A law: every part that a command doesn't set keeps its entries, its tail and its delta, before parts are cut
/// (`command`) and when they are (`cut`).
pub fn commands_are_frugal()
    ensures command { CommandsAreFrugal }
    ensures cut { CutsAreFrugal }
{}

/// A law: what a command needs doesn't depend on which blocks it gets (`same`), and is the number of its new blocks: those
/// of its contents, two for a new directory, two for each run behind the first of each part that it sets (`exact`). It sets
/// at most two parts, a new directory's own aside (`few`).
pub fn need_is_exact()
    ensures same { NeedIsTheSame }
    ensures exact { NeedIsExact }
    ensures few { FewPartsChange }
{
    names_are_ordered();
    entries_are_cut_greedily();
}

/// A law: an accepted command sets a part whose pair the volume has, so that at least one block is written.
pub fn commands_set_a_part()
    ensures { CommandsSetAPart }
{
    names_are_ordered();
}

/// A law: there is one volume that an accepted command leaves, since it takes its blocks in order.
pub fn commands_lead_one_way()
    ensures { CommandsLeadOneWay }
{}

/// A law: what a command needs that no check refuses, those on room aside, is a number of 32 bits, where the volume is without
/// marks and no part of it has more than 65,536 entries.
pub fn needs_are_small()
    ensures { NeedsAreSmall }
{
    names_are_ordered();
}

/// A law: no part of a volume that an image holds has more than 65,536 entries.
pub fn held_volumes_have_few_entries()
    ensures { HeldHaveFewEntries }
{
    both_sides_hold();
    held_parts_have_few_entries();
}

/// A law: the free blocks after a command are those before it without its supplies and its new pairs, with the blocks of contents
/// that it removed or replaced and of a directory that it removed (`free`), and so they are in the volume that the image then
/// holds (`held`).
pub fn free_after()
    ensures uses { UsesAfter }
    ensures free { FreeAfter }
    ensures held { FreeAfterHeld }
{
    names_are_ordered();
    entries_are_cut_greedily();
}

/// A law: a table of the blocks that a volume uses, of as many as an accepted command leaves, becomes that of what it leaves: the
/// blocks that it takes can be marked, and then those unmarked that it removes or replaces.
pub fn tables_follow()
    ensures { TablesFollow }
{
    names_are_ordered();
    entries_are_cut_greedily();
}

/// A law: an image holds the edited volume where the parts that the command sets are written so, and no other block that the
/// volume used (`held`). A volume that an image holds has no marks (`clean`).
pub fn written_volumes_are_held()
    ensures held { WrittenAreHeld }
    ensures clean { HeldAreClean }
{
    parts_depend_on_their_blocks();
    chains_stay_on_their_blocks();
    stored_links_stay();
}
