//! What a command takes of the free blocks.

ghost use Rattle.std.specs.Prelude.{◌≡◌, ◌≤◌, length, take, IfOk};
ghost use Rattle.lfs_fs.specs.Unused.{unused};
ghost use Rattle.lfs_draft.specs.LeastSupplies.{least_pair};

use crate::supplies::Supplies;
use lfs_fs::UsedBlocks;
use std::alloc::{AllocError, Global};

/// The `count` least blocks that aren't used, or all of them where they are fewer.
fn least_free(alloc: Global, used: &UsedBlocks, count: u32) -> Result<Vec<u32>, AllocError>
    ensures { IfOk result (λ blocks. blocks.items ≡ take count (unused used.now)) }
{
    let some = count.min(used.free_count());
    used.lowest_free(alloc, some).ok_or(AllocError)
}

/// The first two of some blocks, as a pair; where they are fewer, block 0 twice, which is no pair of an image.
fn least_pair(blocks: &[u32]) -> (u32, u32)
    ensures { result ≡ least_pair blocks.now }
{
    match blocks {
        [first, second, ..] => (*first, *second),
        _ => (0, 0),
    }
}

/// What a command takes for what it makes: the `count` least free blocks for a file's contents, and the two least for a directory's
/// pair; where they are fewer, what there is.
pub fn least_supplies(alloc: Global, used: &UsedBlocks, count: u32) -> Result<Supplies, AllocError>
    ensures { IfOk result (λ supplies. supplies ≡ record { blocks = take count (unused used.now); pair = least_pair (unused used.now) }) }
{
    let blocks = least_free(alloc, used, count)?;
    let two = least_free(alloc, used, 2)?;
    let pair = least_pair(&two);
    Ok(Supplies { blocks, pair })
}
