//! Changes of the blocks of an image.

ghost use Rattle.std.specs.Prelude.{◌≡◌, ◌<◌, nat_lt, length, map, All, IfOk, OnOk};
ghost use Rattle.std.specs.List.{prefix_len};
ghost use Rattle.lfs_block.specs.Bytes.{IsBytes};
ghost use Rattle.lfs_command.specs.PartWritten.{change_at, changes_at, with_change};

use lfs_block::{Blocks, Record};
use std::alloc::{AllocError, Global};

/// The change of one block of an image.
pub(crate) fn change_of<B: Blocks>(
    alloc: Global,
    image: &B,
    number: u32,
    new: Vec<u8>,
) -> Result<Record, AllocError>
    requires { number < (B.disk image.now).count }
    ensures change { IfOk result (λ change. change ≡ change_at (B.disk image.now) number new.items) }
    ensures bytes { IsBytes new.items }
{
    let old = Vec::from_slice(alloc, image.block(number))?;
    Ok(Record { number, old, new })
}

/// The changes of some blocks of an image.
pub(crate) fn changes_of<B: Blocks>(
    alloc: Global,
    image: &B,
    blocks: &[u32],
    contents: Vec<Vec<u8>>,
) -> Result<Vec<Record>, AllocError>
    requires below { All (λ b. b < (B.disk image.now).count) blocks.now }
    requires many { length contents.items ≡ length blocks.now }
    ensures { IfOk result (λ changes. changes.items ≡ changes_at (B.disk image.now) blocks.now (map (λ c. c.items) contents.items)) }
{
    let mut changes = Vec::new(alloc);
    'each: for new in contents {
        let number = blocks[changes.len()];
        changes.push(change_of(alloc, image, number, new)?)?;
    }
    Ok(changes)
}

/// How many changes are of blocks before a number.
fn place_of(changes: &[Record], number: u32) -> usize
    ensures { result ≡ prefix_len (λ c. nat_lt c.number number) changes.now }
{
    changes
        .iter()
        .take_while(|change| change.number < number)
        .count()
}

/// Puts a change among others, which rise by number.
pub(crate) fn add(changes: &mut Vec<Record>, change: Record) -> Result<(), AllocError>
    ensures { OnOk result (changes.new.items ≡ with_change change changes.old.items) }
{
    let at = place_of(changes, change.number);
    changes.insert(at, change)?;
    Ok(())
}
