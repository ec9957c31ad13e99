//! A new image.

ghost use Rattle.std.specs.Prelude.{◌≡◌, ◌+◌, ◌-◌, ◌≤◌, ◌++◌, length, replicate, IfOk, IfErr};
ghost use Rattle.lfs_block.specs.Bytes.{IsBytes};
ghost use Rattle.lfs_block.specs.Geometry.{IsGeometry};
ghost use Rattle.lfs_fs.specs.Limits.{new_limits};
ghost use Rattle.lfs_fs.specs.Superblock.{IsLimits};
ghost use Rattle.lfs_edit.specs.Formatted.{IsFormatted};

use lfs_command::Refusal;
use lfs_fs::{Limits, NEW_LIMITS, lone_superblocks_mount};
use lfs_law::made_superblocks_say_their_volume;
use lfs_meta::Tail;
use lfs_pair::first_block;
use lfs_write::new_superblock;
use std::alloc::{AllocError, Global};

/// Bytes filled up with erased ones.
fn filled(mut bytes: Vec<u8>, len: usize) -> Result<Vec<u8>, AllocError>
    requires { length bytes.items ≤ len }
    ensures filled { IfOk result (λ all. all.items ≡ bytes.items ++ replicate (len - length bytes.items) 0xff) }
    ensures bytes { IfOk result (λ all. IsBytes bytes.items) }
{
    bytes.resize(len, 0xff)?;
    Ok(bytes)
}

/// A new image of `count` blocks of `size` bytes with the usual limits: names may have 255 bytes, files 2,147,483,647 and
/// attributes 1,022. Else it is as `format_within` says.
pub fn format(alloc: Global, size: u32, count: u32) -> Result<Vec<u8>, Refusal>
    requires { IsGeometry size count }
    ensures image { IfOk result (λ bytes. IsFormatted size count new_limits bytes.items) }
    ensures refused { IfErr result (λ refusal. refusal ≡ Refusal.Memory) }
{
    format_within(alloc, size, count, NEW_LIMITS)
}

/// A new image of `count` blocks of `size` bytes with these limits, which mounts to the root alone. Block 0 holds revision 1
/// and one commit of the superblock; all other bytes are 0xff. The only refusal is `Memory`.
pub fn format_within(
    alloc: Global,
    size: u32,
    count: u32,
    limits: Limits,
) -> Result<Vec<u8>, Refusal>
    requires geometry { IsGeometry size count }
    requires limits { IsLimits limits }
    ensures image { IfOk result (λ bytes. IsFormatted size count limits bytes.items) }
    ensures refused { IfErr result (λ refusal. refusal ≡ Refusal.Memory) }
{
    lone_superblocks_mount();
    made_superblocks_say_their_volume();
    let entries = [new_superblock(alloc, size, count, limits)?];
    let Some(root) = first_block(alloc, size, &entries, Tail::End) else {
        return Err(Refusal::Memory);
    };
    Ok(filled(root, size as usize * count as usize)?)
}
