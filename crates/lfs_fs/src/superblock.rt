//! The superblock of an image.

ghost use Rattle.std.specs.Prelude.{◌≡◌, ◌≤◌, ◌<◌, ◌+◌, ◌*◌, ℕ, List, [], ◌∷◌, All, IfOk, IfErr, IfSome, IfNone, IsTrue, MatchBool, OnOk, ◌↔◌, length};
ghost use Rattle.std.specs.List.{Any};
ghost use Rattle.lfs_fs.specs.Header.{IsHeader, HeaderCause};
ghost use Rattle.lfs_fs.specs.Judged.{SaysLimits, JudgedCause, with_entries};
ghost use Rattle.lfs_fs.specs.SuperblockFirst.{FirstRefused, FirstTaken, HeaderRefused, HeaderTaken};
ghost use Rattle.lfs_fs.specs.Superblock.{IsLimits, IsSuperblock, header_of, word_at};

use crate::limits::{Limits, MOST_FILE, MOST_HELD};
use byteorder::{ByteOrder, LittleEndian};
use lfs_block::MountFault;
use lfs_meta::{Attribute, Body, Entry, Kind, Part};

/// The superblock's name.
const NAME: [u8; 8] = *b"littlefs";
/// The length of its struct, in bytes.
const LEN: usize = 24;
/// Version 2.0 of the disk format.
pub const VERSION: u32 = 0x0002_0000;

/// The struct of an entry, where the entry is a superblock.
fn struct_of(entry: &Entry) -> Option<&[u8]>
    ensures found { IfSome result (λ bytes. IsSuperblock entry.now bytes.now) }
    ensures none { IfNone result ((bytes : List ℕ) → IsSuperblock entry.now bytes → ⊥) }
{
    let Body::Inline(bytes) = &entry.body else {
        return None;
    };
    if entry.kind == Kind::Super && entry.name.as_slice() == NAME.as_slice() && bytes.len() == LEN {
        Some(bytes)
    } else {
        None
    }
}

/// One of the words of a superblock's struct.
fn word_at(bytes: &[u8], index: usize) -> u32
    requires { 4 * index + 4 ≤ length bytes.now }
    ensures { result ≡ word_at bytes.now index }
{
    let at = 4 * index;
    LittleEndian::read_u32(&bytes[at..at + 4])
}

/// Whether the three limits are within their ranges.
fn are_limits(limits: Limits) -> bool
    ensures { IsTrue result ↔ IsLimits limits }
{
    (1..=MOST_HELD).contains(&limits.name)
        && (1..=MOST_FILE).contains(&limits.file)
        && (1..=MOST_HELD).contains(&limits.attribute)
}

/// The limits that a superblock's struct says, where its version and geometry are those of an image of `count` blocks
/// of `size` bytes and its limits are within their ranges.
fn limits_of(bytes: &[u8], size: u32, count: u32) -> Result<Limits, MountFault>
    requires { length bytes.now ≡ 24 }
    ensures good { IfOk result (λ limits. IsHeader size count bytes.now) }
    ensures limits { IfOk result (λ limits. limits ≡ (header_of bytes.now []).limits) }
    ensures refused { IfErr result (λ fault. HeaderCause fault size count bytes.now) }
{
    if word_at(bytes, 0) != VERSION {
        return Err(MountFault::Version);
    }
    if word_at(bytes, 1) != size || word_at(bytes, 2) != count {
        return Err(MountFault::Geometry);
    }
    let limits = Limits {
        name: word_at(bytes, 3),
        file: word_at(bytes, 4),
        attribute: word_at(bytes, 5),
    };
    if are_limits(limits) {
        Ok(limits)
    } else {
        Err(MountFault::Limits)
    }
}

/// Whether no attribute is longer than the limit.
pub(crate) fn are_within(attributes: &[Attribute], limit: u32) -> bool
    ensures { MatchBool result (All (λ a. length a.1 ≤ limit) attributes.now) (Any (λ a. limit < length a.1) attributes.now) }
{
    'each: for attribute in attributes {
        if attribute.value.len() > limit as usize {
            return false;
        }
    }
    true
}

/// Whether an entry is a superblock of an image of `count` blocks of `size` bytes: `NoSuperblock` where it isn't one, else what
/// `limits_of` refuses.
fn header_fits(entry: &Entry, size: u32, count: u32) -> Result<(), MountFault>
    ensures taken { OnOk result (HeaderTaken size count entry.now) }
    ensures refused { IfErr result (λ fault. HeaderRefused fault size count entry.now) }
{
    let bytes = struct_of(entry).ok_or(MountFault::NoSuperblock)?;
    limits_of(bytes, size, count)?;
    Ok(())
}

/// Whether the first of these entries is a superblock of an image of `count` blocks of `size` bytes.
pub(crate) fn first_fits(entries: &[Entry], size: u32, count: u32) -> Result<(), MountFault>
    ensures taken { OnOk result (FirstTaken size count entries.now) }
    ensures refused { IfErr result (λ fault. FirstRefused fault size count entries.now) }
{
    match entries.split_first() {
        Some((first, _)) => header_fits(first, size, count),
        None => Err(MountFault::NoSuperblock),
    }
}

/// The limits that an entry says, where it is a superblock of an image of `count` blocks of `size` bytes: `NoSuperblock`
/// where it isn't one, else what `limits_of` refuses, else `BadSize` where an attribute is over the limit.
pub(crate) fn judged(entry: &Entry, size: u32, count: u32) -> Result<Limits, MountFault>
    ensures judged { IfOk result (λ limits. SaysLimits size count limits entry.now) }
    ensures refused { IfErr result (λ fault. JudgedCause fault size count entry.now) }
{
    let bytes = struct_of(entry).ok_or(MountFault::NoSuperblock)?;
    let limits = limits_of(bytes, size, count)?;
    if !are_within(&entry.attributes, limits.attribute) {
        return Err(MountFault::BadSize);
    }
    Ok(limits)
}

/// Takes the first entry of a part off, if there is one.
pub(crate) fn take_first(part: &mut Part) -> Option<Entry>
    ensures taken { IfSome result (λ entry. part.old ≡ with_entries part.new (entry ∷ part.new.1.entries)) }
    ensures none { IfNone result (part.old.1.entries ≡ []) }
{
    if part.entries.is_empty() {
        return None;
    }
    Some(part.entries.remove(0))
}
