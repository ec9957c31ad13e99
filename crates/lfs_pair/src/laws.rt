//! Laws of what is written: each function does nothing, and its contract is the law.

ghost use Rattle.lfs_pair.specs.Laws.{PartsBecomeOthers, WrittenPartsAreComplete, WrittenPartsReplay};

/// The tags that a part is written as leave that part.
pub fn written_parts_replay()
    ensures replay { WrittenPartsReplay }
    ensures complete { WrittenPartsAreComplete }
{}

/// The tags that carry a part to another, replayed behind it, leave the other one.
pub fn parts_become_others()
    ensures { PartsBecomeOthers }
{}
