//! Looking at pairs, each block once.

ghost use Rattle.std.specs.Prelude.{◌≡◌, ◌+◌, ◌<◌, ◌≤◌, cond, true, false, length, slice_index_or, slice_set, IfOk};
ghost use Rattle.lfs_fs.specs.Used.{unmarked};
ghost use Rattle.lfs_survey.specs.Looking.{Grows, IsFound, IsTurned, is_open, looked_at, looked_behind};

use crate::found::Found;
use lfs_block::{Blocks, MountFault};
use lfs_meta::read_pair;
use std::alloc::{AllocError, Global};

/// Whether a block is not the table's, or was looked at.
pub(crate) fn is_closed(looked: &[bool], block: u32) -> bool
    ensures { result ≡ slice_index_or looked.now block true }
{
    let index = block as usize;
    index >= looked.len() || looked[index]
}

/// Whether both blocks of a pair are the table's, and weren't looked at.
pub(crate) fn is_open(looked: &[bool], pair: (u32, u32)) -> bool
    ensures { result ≡ is_open looked.now pair }
{
    !is_closed(looked, pair.0) && !is_closed(looked, pair.1)
}

/// Marks a block as looked at.
fn mark(looked: &mut [bool], block: u32)
    requires { block < length looked.old }
    ensures { looked.new ≡ slice_set looked.old block true }
{
    looked[block as usize] = true;
}

/// Marks the blocks of a pair as looked at.
fn mark_pair(looked: &mut [bool], pair: (u32, u32))
    requires { is_open looked.old pair ≡ true }
    ensures { looked.new ≡ looked_at looked.old pair }
{
    mark(looked, pair.0);
    if pair.0 != pair.1 {
        mark(looked, pair.1);
    }
}

/// What an open pair holds, or why it holds nothing.
fn read_open<B: Blocks>(
    alloc: Global,
    blocks: &B,
    looked: &[bool],
    pair: (u32, u32),
) -> Result<Found, AllocError>
    requires len { length looked.now ≡ (B.disk blocks.now).count }
    requires fresh { is_open looked.now pair ≡ true }
    ensures { IfOk result (IsFound (B.disk blocks.now) looked.now pair) }
{
    match read_pair(alloc, blocks, pair) {
        Ok(part) => Ok(Found::Part(part)),
        Err(fault) => match fault {
            MountFault::Memory => Err(AllocError),
            _ => Ok(Found::Refused(fault)),
        },
    }
}

/// Why a pair that isn't open is turned away, of so many blocks.
fn turned_away(len: usize, pair: (u32, u32)) -> MountFault
    ensures { IsTurned len pair result }
{
    if pair.0 as usize >= len || pair.1 as usize >= len {
        MountFault::BlockRange
    } else {
        MountFault::BlockTwice
    }
}

/// What is found at a pair, whose blocks are then marked as looked at: nothing where a block of it isn't the image's (`BlockRange`) or
/// was looked at before (`BlockTwice`), else what `read_pair` gives or refuses. Takes memory.
pub fn look_at<B: Blocks>(
    alloc: Global,
    blocks: &B,
    looked: &mut [bool],
    pair: (u32, u32),
) -> Result<Found, AllocError>
    requires len { length looked.old ≡ (B.disk blocks.now).count }
    ensures found { IfOk result (IsFound (B.disk blocks.now) looked.old pair) }
    ensures looked { looked.new ≡ looked_behind looked.old pair }
    ensures closed { is_open looked.new pair ≡ false }
    ensures grows { Grows looked.old looked.new }
    ensures fewer { unmarked looked.new + cond (is_open looked.old pair) 1 0 ≤ unmarked looked.old }
{
    if !is_open(looked, pair) {
        return Ok(Found::Refused(turned_away(looked.len(), pair)));
    }
    let found = read_open(alloc, blocks, looked, pair);
    mark_pair(looked, pair);
    found
}
