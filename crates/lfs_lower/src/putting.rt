//! Pairs rewritten with parts.

ghost use Rattle.std.specs.Prelude.{◌≡◌, ◌<◌, ◌≤◌, ℕ, All, OnOk, map};
ghost use Rattle.std.specs.List.{list_all};
ghost use Rattle.lfs_fs.specs.Front.{pairs_name};
ghost use Rattle.lfs_fs.specs.Thread.{next};
ghost use Rattle.lfs_lower.specs.Joining.{ArePartsPut, ArePlaces, CanPut, IsPartPut};
ghost use Rattle.lfs_lower.specs.OneSuperblock.{can_be_put, tail_within};

use crate::alone::{Rewrite, write_alone};
use lfs_block::Blocks;
use lfs_meta::{LiveBlock, Part, Tail, parts_depend_on_their_blocks, revision};
use lfs_pair::{holds_part, part_block, part_weight};
use lfs_tag::laws::{erased_block, log_is_read};
use std::alloc::{AllocError, Global};

/// The most entries that one pair holds.
const MOST_ENTRIES: usize = 1_000;

// ---- the test

/// Whether a tail names blocks of an image of `count` blocks, or none.
fn tail_within(tail: Tail, count: u32) -> bool
    ensures { result ≡ tail_within count (next tail) }
{
    match tail {
        Tail::End => true,
        Tail::Soft(first, second) | Tail::Hard(first, second) => first < count && second < count,
    }
}

/// Whether a pair of an image of `count` blocks of `size` bytes can be rewritten with a part.
pub(crate) fn can_be_put(part: &Part, size: u32, count: u32) -> bool
    ensures { result ≡ can_be_put size count part.now.1 }
{
    part.entries.len() <= MOST_ENTRIES && part_weight(part) <= size && tail_within(part.tail, count)
}

/// Whether each pair can be rewritten with its part.
pub fn all_can(parts: &[Part], size: u32, count: u32) -> bool
    ensures { result ≡ list_all (λ p. can_be_put size count p.1) parts.now }
{
    parts.iter().all(|part| can_be_put(part, size, count))
}

// ---- pairs rewritten

/// Where the blocks of a pair stand, and the revision of the live one.
#[derive(Clone, Copy)]
pub(crate) struct PairPlaces {
    /// The live block, or the first one if neither is live.
    live: u32,
    /// The one beside it.
    beside: u32,
    /// The revision of the live block.
    revision: u32,
}

/// Where the blocks of a pair stand.
fn places_of<B: Blocks>(blocks: &B, pair: (u32, u32)) -> PairPlaces
    requires first { pair.0 < (B.disk blocks.now).count }
    requires second { pair.1 < (B.disk blocks.now).count }
    ensures { ArePlaces (B.disk blocks.now) pair result }
{
    let _fits_the_limits = blocks.size();
    let first = blocks.block(pair.0);
    let second = blocks.block(pair.1);
    match LiveBlock::of(first, second) {
        LiveBlock::Second(_) => PairPlaces {
            live: pair.1,
            beside: pair.0,
            revision: revision(second),
        },
        LiveBlock::First(_) | LiveBlock::Neither => PairPlaces {
            live: pair.0,
            beside: pair.1,
            revision: revision(first),
        },
    }
}

/// Writes a part into its pair: the live block keeps its place and its revision, and the one beside it is erased, unless it says nothing. A
/// pair that holds the part already stays as it is. If memory is refused, the live block may be written. Takes memory.
fn put_part<B: Rewrite>(alloc: Global, image: &mut B, part: &Part) -> Result<(), AllocError>
    requires { CanPut (B.disk image.old) part.now }
    ensures { OnOk result (IsPartPut (B.disk image.old) (B.disk image.new) part.now) }
{
    let size = image.size();
    if holds_part(alloc, image, part)? {
        return Ok(());
    }
    let places = places_of(image, part.pair);
    let block = part_block(alloc, size, places.revision, part)?;
    erased_block();
    log_is_read();
    write_alone(alloc, image, places.live, places.beside, &block)
}

/// Writes parts into their pairs, no two of which have a block in common: each live block keeps its place and its revision, and the one
/// beside it is erased, unless it says nothing. Pairs that hold their parts already stay as they are. If memory is refused, those that come
/// first are written. Takes memory.
pub fn put_parts<B: Rewrite>(alloc: Global, image: &mut B, parts: &[Part]) -> Result<(), AllocError>
    requires can { All (CanPut (B.disk image.old)) parts.now }
    requires apart { (b : ℕ) → pairs_name b (map (λ p. p.0) parts.now) ≤ 1 }
    ensures { OnOk result (ArePartsPut (B.disk image.old) (B.disk image.new) parts.now) }
{
    parts_depend_on_their_blocks();
    let _fits_the_limits = image.size();
    for part in parts {
        put_part(alloc, image, part)?;
    }
    Ok(())
}
