//! Laws of lowered blocks and pairs: each function does nothing but call laws, and its contract is the law.

ghost use Rattle.lfs_lower.specs.Joined.{OneSuperblockStays};
ghost use Rattle.lfs_lower.specs.Laws.{LivesAreRead, LoweredBlocksAreRead};
ghost use Rattle.lfs_lower.specs.Through.{LoweredPairsAreRead};

use lfs_fs::same_readings_hold_the_same;
use lfs_tag::laws::{erased_block, first_commit, log_is_read, written_length};

/// A law: a lowered block is as long as the block, and version 2.0 reads of it what version 2.1 reads of the block. Of two lowered
/// blocks version 2.0 takes the one for the live one that version 2.1 takes of the two.
pub fn lowered_blocks_are_read()
    ensures blocks { LoweredBlocksAreRead }
    ensures lives { LivesAreRead }
{
    first_commit();
    log_is_read();
    written_length();
    erased_block();
}

/// A law: of an image all of whose blocks are lowered each pair holds what version 2.1 reads of it.
pub fn lowered_pairs_are_read()
    ensures { LoweredPairsAreRead }
{
    lowered_blocks_are_read();
}

/// A law: what an image holds whose superblock stands once, it holds too where it is read as one with one superblock.
pub fn one_superblock_stays()
    ensures { OneSuperblockStays }
{
    same_readings_hold_the_same();
}
