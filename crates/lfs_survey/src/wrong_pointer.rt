//! Which pointer in a file's blocks is wrong.

use byteorder::{ByteOrder, LittleEndian};
use lfs_block::{Blocks, Image};
use lfs_file::blocks_for;
use std::alloc::{AllocError, Global};

/// A pointer that doesn't name the block that it has to.
#[derive(Clone, Copy)]
pub(crate) struct WrongPointer {
    /// The block in which it stands.
    pub(crate) block: u32,
    /// The block that it names.
    pub(crate) named: u32,
    /// The block that it has to name.
    pub(crate) wanted: u32,
}

/// The first wrong pointer in the blocks of a file, where the first pointers lead from its last block to as many as it takes; nothing
/// where they don't, or none is wrong. Takes memory.
pub(crate) fn wrong_pointer(
    alloc: Global,
    image: &Image,
    head: u32,
    size: u32,
) -> Result<Option<WrongPointer>, AllocError> {
    let count = blocks_for(size, image.size());
    if count > image.count() {
        return Ok(None);
    }
    match walked(alloc, image, head, count)? {
        Some(chain) => Ok(wrong_in(image, &chain)),
        None => Ok(None),
    }
}

/// So many blocks, from the last one on by their first pointers, the first one first; nothing where one isn't the image's.
fn walked(
    alloc: Global,
    image: &Image,
    head: u32,
    count: u32,
) -> Result<Option<Vec<u32>>, AllocError> {
    let mut chain = Vec::new(alloc);
    let mut next = Some(head);
    for _ in 0..count {
        let Some(block) = next else {
            return Ok(None);
        };
        next = pointer_at(image, block, 0);
        chain.push(block)?;
    }
    chain.reverse();
    Ok(Some(chain))
}

/// The pointer of this number in a block, where the block is the image's.
fn pointer_at(image: &Image, block: u32, index: usize) -> Option<u32> {
    if block >= image.count() {
        return None;
    }
    let start = index.checked_mul(4)?;
    let word = image.block(block).get(start..)?.get(..4)?;
    Some(LittleEndian::read_u32(word))
}

/// The first wrong pointer in the blocks of a file.
fn wrong_in(image: &Image, chain: &[u32]) -> Option<WrongPointer> {
    for n in 1..chain.len() {
        if let Some(wrong) = wrong_at(image, chain, n) {
            return Some(wrong);
        }
    }
    None
}

/// The first wrong pointer in block `n` of a file.
fn wrong_at(image: &Image, chain: &[u32], n: usize) -> Option<WrongPointer> {
    let block = *chain.get(n)?;
    let mut step: usize = 1;
    for index in 0..16 {
        if n.checked_rem(step)? > 0 {
            return None;
        }
        let wanted = *chain.get(n.checked_sub(step)?)?;
        let named = pointer_at(image, block, index)?;
        if named != wanted {
            return Some(WrongPointer {
                block,
                named,
                wanted,
            });
        }
        step = step.checked_mul(2)?;
    }
    None
}
