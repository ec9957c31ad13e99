//! Laws of what is done step by step: a walk along a path, and a cut of a thread.

ghost use Rattle.lfs_law.specs.PairWalk.{WalksGoByPairs};
ghost use Rattle.lfs_law.specs.PartsCut.{DirectoriesAreCutByPart, LinksAreCutByLink};
ghost use Rattle.lfs_law.specs.WalkRefusal.{WalksAreRefusedByPairs};

/// A law: a walk along a path goes from one directory's pair to the next (`walk`), and is refused there (`refused`).
pub fn walks_go_by_pairs()
    ensures walk { WalksGoByPairs }
    ensures refused { WalksAreRefusedByPairs }
{}

/// A law: a directory is cut part by part (`parts`), and a thread link by link (`links`).
pub fn parts_are_cut_by_themselves()
    ensures parts { DirectoriesAreCutByPart }
    ensures links { LinksAreCutByLink }
{}
