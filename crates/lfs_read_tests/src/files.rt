//! Files that are read, against bytes from outside.

ghost use Rattle.std.specs.Prelude.{◌≡◌, ◌<◌, ◌≤◌, length, All, IfOk};
ghost use Rattle.lfs_block.specs.Geometry.{IsBlockSize};
ghost use Rattle.lfs_file.specs.Content.{content};

use crate::images::image;
use lfs_block::{Blocks, Image};
use lfs_file::{blocks_for, chain, lay, read_file};
use std::alloc::{AllocError, Global};

/// The slices of a file, joined.
fn join<B: Blocks>(
    alloc: Global,
    blocks: &B,
    chain: &[u32],
    size: u32,
) -> Result<Vec<u8>, AllocError>
    requires below { All (λ b. b < (B.disk blocks.now).count) chain.now }
    requires few { length chain.now ≤ (B.disk blocks.now).count }
    ensures { IfOk result (λ bytes. bytes.items ≡ content (B.disk blocks.now) size chain.now) }
{
    let mut bytes = Vec::new(alloc);
    for slice in read_file(blocks, chain, size) {
        bytes.extend_from_slice(slice)?;
    }
    Ok(bytes)
}

/// What blocks 2 to 7 of an image hold: pointers, and the bytes of a file from one number to another.
const PARTS: [(&[u8], usize, usize); 6] = [
    (&[], 0, 512),
    (&[2, 0, 0, 0], 512, 1_020),
    (&[3, 0, 0, 0, 2, 0, 0, 0], 1_020, 1_524),
    (&[4, 0, 0, 0], 1_524, 2_032),
    (&[5, 0, 0, 0, 4, 0, 0, 0, 2, 0, 0, 0], 2_032, 2_532),
    (&[6, 0, 0, 0], 2_532, 3_040),
];

/// Byte `n` of the file.
fn byte_of(n: usize) -> u8 {
    (n % 251) as u8
}

/// Adds the bytes of the file from one number to another.
fn add_bytes(bytes: &mut Vec<u8>, from: usize, to: usize) -> Result<(), AllocError> {
    for n in from..to {
        bytes.push(byte_of(n))?;
    }
    Ok(())
}

/// Adds what the blocks 2 to 7 hold.
fn add_parts(bytes: &mut Vec<u8>) -> Result<(), AllocError> {
    for (pointers, from, to) in &PARTS {
        bytes.extend_from_slice(pointers)?;
        add_bytes(bytes, *from, *to)?;
    }
    Ok(())
}

/// The bytes of the image.
fn image_bytes(alloc: Global) -> Result<Vec<u8>, AllocError> {
    let mut bytes = vec![in alloc; 0u8; 1_024]?;
    add_parts(&mut bytes)?;
    Ok(bytes)
}

/// The bytes of the file.
fn file_bytes(alloc: Global) -> Result<Vec<u8>, AllocError> {
    let mut bytes = Vec::new(alloc);
    add_bytes(&mut bytes, 0, 3_040)?;
    Ok(bytes)
}

/// What is laid for a file in these blocks; none where they aren't as many as it takes.
fn lay_in(alloc: Global, file: &[u8], blocks: &[u32], size: u32) -> Option<Vec<Vec<u8>>>
    requires { IsBlockSize size }
{
    let len = u32::try_from(file.len()).ok()?;
    if blocks_for(len, size) as usize != blocks.len() {
        return None;
    }
    lay(alloc, file, blocks, size)
}

/// Whether these are the bytes of the file.
fn are_file(alloc: Global, bytes: &[u8]) -> bool {
    match file_bytes(alloc) {
        Ok(file) => bytes == file.as_slice(),
        Err(_) => false,
    }
}

/// Whether an image has the file in these blocks.
fn has_file(alloc: Global, image: &Image, blocks: &[u32]) -> bool {
    let Ok(found) = chain(alloc, image, 7, 3_040) else {
        return false;
    };
    match join(alloc, image, &found, 3_040) {
        Ok(bytes) => found.as_slice() == blocks && are_file(alloc, &bytes),
        Err(_) => false,
    }
}

/// The image.
fn file_image(alloc: Global) -> Option<Image> {
    match image_bytes(alloc) {
        Ok(bytes) => image(bytes, 512),
        Err(_) => None,
    }
}

/// Whether the image has the file.
fn gives_file(alloc: Global) -> bool {
    match file_image(alloc) {
        Some(image) => has_file(alloc, &image, &[2, 3, 4, 5, 6, 7]),
        None => false,
    }
}

#[test]
fn gives_the_contents(rt: HostRuntime) {
    assert!(rt; gives_file(rt.alloc()));
}

/// A size of blocks, and how many the longest file takes.
const LONGEST: [(u32, u32); 2] = [(256, 17_318_417), (65_536, 65_545)];

#[test]
fn takes_the_least_blocks(rt: HostRuntime) {
    for (size, want) in &LONGEST {
        assert!(rt; blocks_for(0xffff_ffff, *size) == *want);
    }
}

/// Whether blocks are those of the image behind its first two.
fn are_laid(laid: &[Vec<u8>], image: &Image) -> bool {
    for n in 2..image.count() {
        match laid.get(n as usize - 2) {
            Some(block) if block.as_slice() == image.block(n) => {}
            _ => return false,
        }
    }
    laid.len() == 6 && image.count() == 8
}

/// Whether the file is laid so into these blocks of the image.
fn is_laid(alloc: Global, image: &Image, blocks: &[u32]) -> bool {
    let Ok(file) = file_bytes(alloc) else {
        return false;
    };
    match lay_in(alloc, &file, blocks, 512) {
        Some(laid) => are_laid(&laid, image),
        None => false,
    }
}

/// Whether the image's blocks are laid.
fn lays_image(alloc: Global) -> bool {
    match file_image(alloc) {
        Some(image) => is_laid(alloc, &image, &[2, 3, 4, 5, 6, 7]),
        None => false,
    }
}

#[test]
fn lays_blocks(rt: HostRuntime) {
    assert!(rt; lays_image(rt.alloc()));
}
