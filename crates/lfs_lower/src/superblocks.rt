//! The parts of the pairs of an image's superblocks.

ghost use Rattle.std.specs.Prelude.{◌≡◌, ◌<◌, [], All, IfOk, MatchBool, IfSome, IfNone, Some, None};
ghost use Rattle.std.specs.List.{AllByRecursion};
ghost use Rattle.lfs_meta.specs.LiveBlock.{stored_part_of};
ghost use Rattle.lfs_meta.specs.Complete.{IsComplete};
ghost use Rattle.lfs_fs.specs.Reading.{reading_of};
ghost use Rattle.lfs_lower.specs.OneSuperblock.{behind_superblock, is_superblock, lead_by, superblock_pairs};
ghost use Rattle.lfs_lower.specs.Joining.{parts_held};

use lfs_block::{Blocks, MountFault};
use lfs_fs::{ROOT, mark_all};
use lfs_meta::{Body, Entry, Kind, Part, Tail, read_pair, unread_pairs_hold_no_part};
use std::alloc::{AllocError, Global};

/// The superblock's name.
const NAME: [u8; 8] = *b"littlefs";
/// The length of its struct, in bytes.
const HEADER_LEN: usize = 24;

/// Whether an entry is a superblock: one of that kind, of the superblock's name, with a struct of its length.
pub(crate) fn is_superblock(entry: &Entry) -> bool
    ensures { result ≡ is_superblock entry.now }
{
    let Body::Inline(bytes) = &entry.body else {
        return false;
    };
    entry.kind == Kind::Super
        && entry.name.as_slice() == NAME.as_slice()
        && bytes.len() == HEADER_LEN
}

/// Whether entries are a superblock alone, or none.
fn leads_on(entries: &[Entry]) -> bool
    ensures { MatchBool result (behind_superblock entries.now ≡ []) (behind_superblock entries.now ≡ [] → ⊥) }
{
    match entries.split_first() {
        Some((first, more)) => more.is_empty() && is_superblock(first),
        None => true,
    }
}

/// The pair that a part leads on to: where it holds a superblock alone, or no entry, the pair that its hard tail names.
fn lead(part: &Part) -> Option<(u32, u32)>
    ensures { result ≡ lead_by part.now.1.tail (behind_superblock part.now.1.entries) }
{
    match part.tail {
        Tail::Hard(first, second) if leads_on(&part.entries) => Some((first, second)),
        _ => None,
    }
}

/// What a pair holds, or `None` where it is not read.
pub fn part_at<B: Blocks>(
    alloc: Global,
    blocks: &B,
    pair: (u32, u32),
) -> Result<Option<Part>, AllocError>
    requires first { pair.0 < (B.disk blocks.now).count }
    requires second { pair.1 < (B.disk blocks.now).count }
    ensures none { IfOk result (λ part. IfNone part (stored_part_of (B.disk blocks.now) pair ≡ None)) }
    ensures pair { IfOk result (λ part. IfSome part (λ p. p.0 ≡ pair)) }
    ensures found { IfOk result (λ part. IfSome part (λ p. stored_part_of (B.disk blocks.now) pair ≡ Some p.1)) }
    ensures complete { IfOk result (λ part. IfSome part (λ p. AllByRecursion IsComplete p.1.entries)) }
{
    unread_pairs_hold_no_part();
    match read_pair(alloc, blocks, pair) {
        Ok(part) => Ok(Some(part)),
        Err(fault) => match fault {
            MountFault::Memory => Err(AllocError),
            _ => Ok(None),
        },
    }
}

/// What the pairs of superblocks hold: the root's first pair, and each that the one before leads to, up to one that isn't read, that has
/// a block past the end, or one that was named before.
pub(crate) fn superblock_parts<B: Blocks>(
    alloc: Global,
    blocks: &B,
) -> Result<Vec<Part>, AllocError>
    ensures parts { IfOk result (λ parts. parts.items ≡ parts_held (reading_of (B.disk blocks.now)) (superblock_pairs (reading_of (B.disk blocks.now)))) }
    ensures complete { IfOk result (λ parts. All (λ p. AllByRecursion IsComplete p.1.entries) parts.items) }
{
    let mut used = vec![in alloc; false; blocks.count() as usize]?;
    let table = used.as_mut_slice();
    let mut parts = Vec::new(alloc);
    let mut next = Some(ROOT);
    'walk: while let Some(pair) = next {
        if mark_all(table, &[pair.0, pair.1]).is_err() {
            return Ok(parts);
        }
        let Some(part) = part_at(alloc, blocks, pair)? else {
            return Ok(parts);
        };
        next = lead(&part);
        parts.push(part)?;
    }
    Ok(parts)
}
