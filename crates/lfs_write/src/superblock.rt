//! The superblock that is written.

ghost use Rattle.std.specs.Prelude.{◌≡◌, [], IfOk};
ghost use Rattle.lfs_meta.specs.Fits.{RiseFrom};
ghost use Rattle.lfs_fs.specs.Superblock.{superblock_entry};
ghost use Rattle.lfs_law.specs.SuperblockBytes.{superblock_bytes};

use byteorder::{ByteOrder, LittleEndian};
use lfs_fs::{Limits, VERSION};
use lfs_meta::{Attribute, Body, Entry, Kind};
use std::alloc::{AllocError, Global};

/// The superblock's struct.
fn superblock_bytes(size: u32, count: u32, limits: Limits) -> [u8; 24]
    ensures { result ≡ superblock_bytes size count limits }
{
    let words = [
        VERSION,
        size,
        count,
        limits.name,
        limits.file,
        limits.attribute,
    ];
    let mut bytes = [0; 24];
    LittleEndian::write_u32_into(&words, &mut bytes);
    bytes
}

/// The superblock of an image of `count` blocks of `size` bytes.
pub(crate) fn superblock(
    alloc: Global,
    size: u32,
    count: u32,
    limits: Limits,
    attributes: Vec<Attribute>,
) -> Result<Entry, AllocError>
    requires { RiseFrom 0 attributes.items }
    ensures { IfOk result (λ entry. entry ≡ superblock_entry (superblock_bytes size count limits) attributes.items) }
{
    let bytes = superblock_bytes(size, count, limits);
    Ok(Entry {
        name: Vec::from_slice(alloc, b"littlefs")?,
        kind: Kind::Super,
        body: Body::Inline(Vec::from_slice(alloc, &bytes)?),
        attributes,
    })
}

/// The superblock of a new image of `count` blocks of `size` bytes with these limits, without attributes.
///
/// Source: SPEC.md, "0x0ff superblock".
pub fn new_superblock(
    alloc: Global,
    size: u32,
    count: u32,
    limits: Limits,
) -> Result<Entry, AllocError>
    ensures { IfOk result (λ entry. entry ≡ superblock_entry (superblock_bytes size count limits) []) }
{
    let attributes = Vec::new(alloc);
    superblock(alloc, size, count, limits, attributes)
}
