//! Laws of what pairs hold: each function does nothing, and its contract is the law.

ghost use Rattle.lfs_meta.specs.HeldLaws.{PairsWithoutAPartHaveACause, HeldPartsAreComplete, HeldPartsHaveFewEntries};

use lfs_tag::laws::{blocks_have_a_log, log_tags_are_few, log_tags_are_items};

/// A pair that holds no part all of whose entries are complete has a cause.
pub fn pairs_without_a_part_have_a_cause()
    ensures { PairsWithoutAPartHaveACause }
{}

/// The entries of a part that a pair of a disk holds are complete, and their attributes rise strictly by kind.
pub fn held_parts_are_complete()
    ensures { HeldPartsAreComplete }
{
    blocks_have_a_log();
    log_tags_are_items();
}

/// A part that a pair of a disk holds has at most 65,536 entries: each tag takes four bytes of its block, and adds at most
/// one entry, or names one whose id is below 1,024.
pub fn held_parts_have_few_entries()
    ensures { HeldPartsHaveFewEntries }
{
    log_tags_are_few();
}
