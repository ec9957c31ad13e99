//! Laws of pairs and names: each function does nothing, and its contract is the law.

ghost use Rattle.lfs_meta.specs.Laws.{LiveBlocksAreRead, NamesAreDecided, PartsDependOnTheirBlocks, UnreadPairsHoldNoPart};

/// The test of a name says whether it is one.
pub fn names_are_decided()
    ensures { NamesAreDecided }
{}

/// What a pair holds depends on its two blocks alone.
pub fn parts_depend_on_their_blocks()
    ensures { PartsDependOnTheirBlocks }
{}

/// A pair that has a cause holds no part all of whose entries are complete.
pub fn unread_pairs_hold_no_part()
    ensures { UnreadPairsHoldNoPart }
{}

/// The live block of a pair has a commit, and its log is what is read of it in all its fields. Where neither block is
/// live, neither has a commit.
pub fn live_blocks_are_read()
    ensures { LiveBlocksAreRead }
{}
