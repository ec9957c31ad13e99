//! What a block has room for, and what stands in it before its entries.

ghost use Rattle.std.specs.Prelude.{◌≡◌, ◌≤◌, List};
ghost use Rattle.lfs_meta.specs.Runs.{runs_after, most_entries};
ghost use Rattle.lfs_fs.specs.Entry.{Entry};
ghost use Rattle.lfs_fs.specs.Pair.{root, same_pair};
ghost use Rattle.lfs_fs.specs.Weight.{superblock_weight, weight};
ghost use Rattle.lfs_command.specs.Cut.{room};
ghost use Rattle.lfs_law.specs.PartsCut.{runs_at};

use lfs_fs::Outline;
use lfs_meta::attributes_weight;

/// The bytes of a block that entries can't take: revision, tail, delta and checksum.
pub(crate) const KEPT: u32 = 40;
/// The bytes of the superblock's name and struct.
const SUPERBLOCK_LEN: u32 = 40;

/// What a block of an outline has room for.
#[derive(Clone, Copy)]
pub(crate) struct BlockRoom {
    /// The bytes that entries may take.
    pub(crate) bytes: u32,
    /// The bytes that the superblock takes.
    pub(crate) superblock: u32,
    pub(crate) ghost small: { bytes ≤ 65536 },
    pub(crate) ghost light: { superblock ≤ 330244 },
}

/// What a block of an outline has room for.
pub(crate) fn block_room(outline: &Outline) -> BlockRoom
    requires size { outline.now.size ≤ 65536 }
    ensures bytes { result.bytes ≡ room outline.now }
    ensures superblock { result.superblock ≡ superblock_weight outline.now.attributes }
{
    BlockRoom {
        bytes: outline.size.saturating_sub(KEPT),
        superblock: SUPERBLOCK_LEN + attributes_weight(&outline.attributes),
    }
}

/// Whether a pair is the one that holds the superblock.
pub(crate) fn is_root(pair: (u32, u32)) -> bool
    ensures { result ≡ same_pair pair root }
{
    pair.0 == 0 && pair.1 == 1
}

/// What the first run of a pair's entries weighs already, and how many entries it has: the superblock counts as the first entry of
/// its part.
pub(crate) fn begun_run(room: BlockRoom, pair: (u32, u32)) -> (u32, usize)
    ensures runs { (es : List Entry) → runs_after weight room.bytes result.0 result.1 es ≡ runs_at room.bytes room.superblock pair es }
    ensures light { result.0 ≤ 330244 }
    ensures few { result.1 ≤ most_entries }
{
    if is_root(pair) {
        (room.superblock, 1)
    } else {
        (0, 0)
    }
}
