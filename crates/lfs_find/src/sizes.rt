//! The sizes of blocks that logs in a file state.

ghost use Rattle.std.specs.Prelude.{◌≡◌, ◌==◌, ◌&&◌, ◌≤◌, IfOk, OnOk, drop, length};
ghost use Rattle.std.specs.List.{list_any};
ghost use Rattle.lfs_find.specs.Place.{log_begins};
ghost use Rattle.lfs_find.specs.Sizes.{log_size, may_look, most_sizes, sizes_stated, with_size};

use crate::places::log_begins;
use lfs_block::geometry_ok;
use lfs_lower::log_superblock;
use std::alloc::{AllocError, Global};

/// The least bytes of a block, for each of which a log is looked at.
const MIN_BLOCK: usize = 256;
/// How many logs are looked at beside these.
const FIRST_LOGS: usize = 4_096;
/// The most sizes that are kept.
const MOST_SIZES: usize = 16;

/// Whether a log is looked at at a byte, where so much was read before.
pub(crate) fn may_look(at: usize, spent: usize) -> bool
    ensures { result ≡ may_look at spent }
{
    spent <= at / MIN_BLOCK + FIRST_LOGS
}

/// Whether a log begins at a byte and is looked at, where so much was read before.
fn has_log(bytes: &[u8], at: usize, spent: usize) -> bool
    requires { at ≤ length bytes.now }
    ensures { result ≡ (log_begins (drop at bytes.now) && may_look at spent) }
{
    let (_, rest) = bytes.split_at(at);
    log_begins(rest) && may_look(at, spent)
}

/// The size that the superblock of the log with which bytes begin states, if blocks have it.
fn log_size(bytes: &[u8]) -> Option<u32>
    ensures { result ≡ log_size bytes.now }
{
    let stated = log_superblock(bytes)?;
    if geometry_ok(stated.size, 2) {
        Some(stated.size)
    } else {
        None
    }
}

/// Whether one of these sizes is this one.
fn has_size(sizes: &[u32], size: u32) -> bool
    ensures { result ≡ list_any (λ s. s == size) sizes.now }
{
    sizes.iter().any(|known| *known == size)
}

/// Adds a size, if it isn't there and there is room.
fn add_size(sizes: &mut Vec<u32>, size: Option<u32>) -> Result<(), AllocError>
    ensures { OnOk result (sizes.new.items ≡ with_size sizes.old.items size) }
{
    let Some(size) = size else {
        return Ok(());
    };
    if sizes.len() < MOST_SIZES && !has_size(sizes, size) {
        sizes.push(size)?;
    }
    Ok(())
}

/// The sizes of blocks that logs in a file state, the first ones first. Takes memory.
pub(crate) fn sizes_stated(alloc: Global, bytes: &[u8]) -> Result<Vec<u32>, AllocError>
    ensures stated { IfOk result (λ sizes. sizes.items ≡ sizes_stated bytes.now) }
    ensures few { IfOk result (λ sizes. length sizes.items ≤ most_sizes) }
{
    let mut sizes = Vec::new(alloc);
    let mut spent = 0;
    for at in 0..bytes.len() {
        if !has_log(bytes, at, spent) {
            continue;
        }
        add_size(&mut sizes, log_size(bytes.split_at(at).1))?;
        spent += 1;
    }
    Ok(sizes)
}
