//! Entries kept as they are gathered.

ghost use Rattle.std.specs.Prelude.{◌≡◌, ◌≢◌, IfOk, IfErr, MatchBool, length};
ghost use Rattle.lfs_block.specs.Disk.{IsDisk};
ghost use Rattle.lfs_meta.specs.declared.kind.Kind.TheVariants.{Super};
ghost use Rattle.lfs_meta.specs.BodyHeld.{body_held};
ghost use Rattle.lfs_meta.specs.Fits.{BodyFits};
ghost use Rattle.lfs_meta.specs.Complete.{IsComplete};
ghost use Rattle.lfs_fs.specs.AsStored.{stored_body};
ghost use Rattle.lfs_fs.specs.FrontCause.{IsOversized};
ghost use Rattle.lfs_fs.specs.Gathering.{BodyCause, EntryCause, KeepsBody, KeepsEntry, IsWithin, stored_length};
ghost use Rattle.lfs_fs.specs.OutlineHeld.{outline_body_held};
ghost use Rattle.lfs_fs.specs.Reading.{reading_of};

use crate::limits::Limits;
use crate::outline_body::OutlineBody;
use crate::outline_entry::OutlineEntry;
use crate::superblock::are_within;
use crate::used::mark_all;
use lfs_block::{Blocks, MountFault};
use lfs_file::{chain, contents_have_their_length};
use lfs_meta::{Body, Entry, Kind, names_are_decided};
use std::alloc::Global;

/// The size that a body says, in bytes: 0 for a directory.
fn length_of(body: &Body) -> usize
    ensures { result ≡ stored_length (body_held body.now) }
{
    match body {
        Body::Inline(bytes) => bytes.len(),
        Body::Chain { head: _, size } => *size as usize,
        Body::Directory(..) => 0,
    }
}

/// Whether the name, the size and the attributes of an entry of a file or a directory are within the limits.
fn is_within(entry: &Entry, limits: Limits) -> bool
    requires complete { IsComplete entry.now }
    requires other { entry.now.kind ≢ Super }
    ensures { MatchBool result (IsWithin limits entry.now) (IsOversized limits entry.now) }
{
    if entry.name.len() > limits.name as usize {
        return false;
    }
    if length_of(&entry.body) > limits.file as usize {
        return false;
    }
    are_within(&entry.attributes, limits.attribute)
}

/// The body kept, and a chain's blocks marked: `BadSkipList` where there is no chain, `BlockTwice` where a block of it is
/// marked, `BlockRange` where a directory's pair isn't of blocks of the disk.
fn kept_body<B: Blocks>(
    alloc: Global,
    blocks: &B,
    used: &mut [bool],
    body: Body,
) -> Result<OutlineBody, MountFault>
    requires disk { IsDisk (B.disk blocks.now) }
    requires len { length used.old ≡ (B.disk blocks.now).count }
    requires fits { BodyFits (body_held body) }
    ensures fits { IfOk result (λ kept. BodyFits (stored_body (outline_body_held kept))) }
    ensures kept { IfOk result (λ kept. KeepsBody (reading_of (B.disk blocks.now)) used.old used.new (body_held body) (outline_body_held kept)) }
    ensures refused { IfErr result (λ fault. BodyCause fault (reading_of (B.disk blocks.now)) used.old (body_held body)) }
{
    contents_have_their_length();
    let count = blocks.count();
    match body {
        Body::Inline(bytes) => Ok(OutlineBody::Inline(bytes)),
        Body::Chain { head, size } => {
            let blocks = chain(alloc, blocks, head, size)?;
            mark_all(used, &blocks)?;
            Ok(OutlineBody::Chain { blocks, size })
        }
        Body::Directory(first, second) => {
            if first >= count || second >= count {
                return Err(MountFault::BlockRange);
            }
            Ok(OutlineBody::Directory(first, second))
        }
    }
}

/// An entry kept, and its blocks marked: `SuperblockElsewhere` where it is a superblock, `BadSize` where it is over a
/// limit, else what its body is refused for.
pub(crate) fn kept_entry<B: Blocks>(
    alloc: Global,
    blocks: &B,
    limits: Limits,
    used: &mut [bool],
    entry: Entry,
) -> Result<OutlineEntry, MountFault>
    requires disk { IsDisk (B.disk blocks.now) }
    requires len { length used.old ≡ (B.disk blocks.now).count }
    requires complete { IsComplete entry }
    ensures kept { IfOk result (λ kept. KeepsEntry (reading_of (B.disk blocks.now)) limits used.old used.new entry kept) }
    ensures refused { IfErr result (λ fault. EntryCause fault (reading_of (B.disk blocks.now)) limits used.old entry) }
{
    names_are_decided();
    if entry.kind == Kind::Super {
        return Err(MountFault::SuperblockElsewhere);
    }
    if !is_within(&entry, limits) {
        return Err(MountFault::BadSize);
    }
    let body = kept_body(alloc, blocks, used, entry.body)?;
    Ok(OutlineEntry {
        name: entry.name,
        body,
        attributes: entry.attributes,
    })
}
