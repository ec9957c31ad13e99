//! What stands at the front of a journal's bytes. Each reader gives what it reads with the bytes behind it, and refuses
//! with `JournalFormat` where nothing of the kind stands there.

ghost use Rattle.std.specs.Prelude.{◌≡◌, ◌<◌, ◌≤◌, ◌+◌, length, IfOk};
ghost use Rattle.lfs_block.specs.Geometry.{IsGeometry};
ghost use Rattle.lfs_journal.specs.Faults.{Gives};
ghost use Rattle.lfs_journal.specs.Reading.{word_at, block_at, is_all_erased, change_at, changes_at, counts_at, patch_at, patches_at, is_growth, is_version, is_head, head_at};
ghost use Rattle.lfs_journal.specs.HeadSeen.{head_seen, counts_seen};
ghost use Rattle.lfs_journal.specs.Book.{most_changes};

use crate::journal_fault::JournalFault;
use lfs_block::{Patch, Record, geometry_ok, little_word};
use std::alloc::Global;

/// The first word of a journal: the letters `lfsj`.
pub(crate) const LETTERS: u32 = 0x6a73_666c;
/// The version of the format that has no counts at its changes.
const FIRST_VERSION: u32 = 1;
/// The version of the format that is written.
pub(crate) const VERSION: u32 = 2;
/// The most changes that a journal holds, done and undone.
pub const MOST_CHANGES: u32 = 1_000;

/// What stands before the changes.
#[derive(Clone, Copy)]
pub(crate) struct Head {
    /// The version of the format.
    pub(crate) version: u32,
    /// The block size, in bytes.
    pub(crate) size: u32,
    /// The number of blocks.
    pub(crate) count: u32,
    /// The number of changes that are done.
    pub(crate) done: u32,
    /// The number of changes that are undone.
    pub(crate) undone: u32,
}

/// How many blocks an image has before a change and after it.
#[derive(Clone, Copy)]
pub(crate) struct Counts {
    /// Before it.
    pub(crate) before: u32,
    /// After it.
    pub(crate) after: u32,
}

/// A number of four bytes.
#[tactic(auto, unfolding(crate::specs::Reading::word_at))]
fn word_at(bytes: &[u8]) -> Result<(u32, &[u8]), JournalFault>
    ensures { Gives (λ x. (x.0, x.1.now)) result (word_at bytes.now) }
{
    if bytes.len() < 4 {
        return Err(JournalFault::JournalFormat);
    }
    let (word, rest) = bytes.split_at(4);
    Ok((little_word(word), rest))
}

/// The bytes of a block.
#[tactic(auto, unfolding(crate::specs::Reading::block_at))]
fn block_at(size: u32, bytes: &[u8]) -> Result<(&[u8], &[u8]), JournalFault>
    ensures { Gives (λ x. (x.0.now, x.1.now)) result (block_at size bytes.now) }
{
    let size = size as usize;
    if bytes.len() < size {
        return Err(JournalFault::JournalFormat);
    }
    Ok(bytes.split_at(size))
}

/// Whether each byte is 0xff.
fn is_erased(bytes: &[u8]) -> bool
    ensures { result ≡ is_all_erased bytes.now }
{
    bytes.iter().all(|byte| *byte == 0xff)
}

/// The change of one block of `size` bytes, whose number is `least` or more and below the count after. A block that isn't there
/// before is erased before.
#[tactic(auto, unfolding(crate::specs::Reading::change_at))]
fn record_at(
    alloc: Global,
    size: u32,
    counts: Counts,
    least: u32,
    bytes: &[u8],
) -> Result<(Record, &[u8]), JournalFault>
    ensures given { Gives (λ x. (x.0, x.1.now)) result (change_at size counts.before counts.after least bytes.now) }
    ensures below { IfOk result (λ x. x.0.number < counts.after) }
{
    let (number, rest) = word_at(bytes)?;
    if number < least || number >= counts.after {
        return Err(JournalFault::JournalFormat);
    }
    let (old, rest) = block_at(size, rest)?;
    let (new, rest) = block_at(size, rest)?;
    if counts.before <= number && !is_erased(old) {
        return Err(JournalFault::JournalFormat);
    }
    let old = Vec::from_slice(alloc, old)?;
    let new = Vec::from_slice(alloc, new)?;
    Ok((Record { number, old, new }, rest))
}

/// So many changes of one block each, whose numbers rise.
fn records_at(
    alloc: Global,
    size: u32,
    counts: Counts,
    many: u32,
    bytes: &[u8],
) -> Result<(Vec<Record>, &[u8]), JournalFault>
    ensures { Gives (λ x. (x.0.items, x.1.now)) result (changes_at size counts.before counts.after many 0 bytes.now) }
{
    let mut records = Vec::new(alloc);
    let mut least = 0;
    let mut rest = bytes;
    for _ in 0..many {
        let (record, behind) = record_at(alloc, size, counts, least, rest)?;
        least = record.number + 1;
        records.push(record)?;
        rest = behind;
    }
    Ok((records, rest))
}

/// Whether blocks of this size are an image in both numbers, of which the second isn't less.
fn is_growth(size: u32, before: u32, after: u32) -> bool
    ensures { result ≡ is_growth size before after }
{
    geometry_ok(size, before) && geometry_ok(size, after) && before <= after
}

/// The counts of blocks before a change and after it. Version 1 doesn't have them: there they are those of the image.
#[tactic(auto, unfolding(crate::specs::Reading::counts_at))]
fn counts_at(head: Head, bytes: &[u8]) -> Result<(Counts, &[u8]), JournalFault>
    ensures { Gives (λ x. (counts_seen x.0, x.1.now)) result (counts_at (head_seen head) bytes.now) }
{
    if head.version == FIRST_VERSION {
        let counts = Counts {
            before: head.count,
            after: head.count,
        };
        return Ok((counts, bytes));
    }
    let (before, rest) = word_at(bytes)?;
    let (after, rest) = word_at(rest)?;
    if !is_growth(head.size, before, after) {
        return Err(JournalFault::JournalFormat);
    }
    Ok((Counts { before, after }, rest))
}

/// A change of one block or more.
#[tactic(auto, unfolding(crate::specs::Reading::patch_at))]
fn patch_at(alloc: Global, head: Head, bytes: &[u8]) -> Result<(Patch, &[u8]), JournalFault>
    requires { IsGeometry head.size head.count }
    ensures { Gives (λ x. (x.0, x.1.now)) result (patch_at (head_seen head) bytes.now) }
{
    let (many, rest) = word_at(bytes)?;
    if many == 0 {
        return Err(JournalFault::JournalFormat);
    }
    let (counts, rest) = counts_at(head, rest)?;
    let (records, rest) = records_at(alloc, head.size, counts, many, rest)?;
    Ok((
        Patch::of(head.size, counts.before, counts.after, records),
        rest,
    ))
}

/// So many changes.
pub(crate) fn patches_at(
    alloc: Global,
    head: Head,
    many: u32,
    bytes: &[u8],
) -> Result<(Vec<Patch>, &[u8]), JournalFault>
    requires { IsGeometry head.size head.count }
    ensures { Gives (λ x. (x.0.items, x.1.now)) result (patches_at (head_seen head) many bytes.now) }
{
    let mut patches = Vec::new(alloc);
    let mut rest = bytes;
    for _ in 0..many {
        let (patch, behind) = patch_at(alloc, head, rest)?;
        patches.push(patch)?;
        rest = behind;
    }
    Ok((patches, rest))
}

/// Whether a version is read.
fn is_version(version: u32) -> bool
    ensures { result ≡ is_version version }
{
    version == FIRST_VERSION || version == VERSION
}

/// Whether the image keeps its limits, and there are not too many changes.
fn is_head(head: Head) -> bool
    ensures { result ≡ is_head (head_seen head) }
{
    geometry_ok(head.size, head.count)
        && u64::from(head.done) + u64::from(head.undone) <= u64::from(MOST_CHANGES)
}

/// What stands before the changes.
#[tactic(auto, unfolding(crate::specs::Reading::head_at))]
pub(crate) fn head_at(bytes: &[u8]) -> Result<(Head, &[u8]), JournalFault>
    ensures given { Gives (λ x. (head_seen x.0, x.1.now)) result (head_at bytes.now) }
    ensures few { IfOk result (λ x. x.0.done + x.0.undone ≤ most_changes) }
    ensures geometry { IfOk result (λ x. IsGeometry x.0.size x.0.count) }
{
    let (letters, rest) = word_at(bytes)?;
    let (version, rest) = word_at(rest)?;
    let (size, rest) = word_at(rest)?;
    let (count, rest) = word_at(rest)?;
    let (done, rest) = word_at(rest)?;
    let (undone, rest) = word_at(rest)?;
    let head = Head {
        version,
        size,
        count,
        done,
        undone,
    };
    if letters != LETTERS || !is_version(version) || !is_head(head) {
        return Err(JournalFault::JournalFormat);
    }
    Ok((head, rest))
}
