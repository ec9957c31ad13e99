//! A draft of an image: blocks that are written anew beside it.

ghost use Rattle.std.specs.Prelude.{◌≡◌, ◌++◌, ◌∷◌, [], IfOk, None, OnOk, cond, replicate};
ghost use Rattle.lfs_adopt.specs.Draft.{IsDraft, drafted};

use lfs_block::{Blocks, Image, images_are_their_blocks, put_blocks_stand};
use lfs_lower::Rewrite;
use std::alloc::{AllocError, Global};
use std::marker::Model;

// ---- new blocks

/// A block that is written anew. Its meaning is its bytes.
#[derive(Drop)]
pub struct NewBlock {
    /// The bytes, as many as the block size.
    pub bytes: Vec<u8>,
}

impl Model for NewBlock {
    ghost use Rattle.std.specs.Prelude.{ℕ, List};

    ghost Value = { List ℕ };

    ghost view = { λ b. b.bytes.items };

    ghost invariant = { λ b. Unit };
}

/// No new block, for each of so many blocks. Takes memory.
fn no_blocks(alloc: Global, count: u32) -> Result<Vec<Option<NewBlock>>, AllocError>
    ensures { IfOk result (λ blocks. blocks.items ≡ replicate count None) }
{
    let mut blocks = Vec::with_capacity(alloc, count as usize)?;
    for _number in 0..count {
        blocks.push(None)?;
    }
    Ok(blocks)
}

/// Puts a number after others, if the block of that number differs. Takes memory.
fn push_if(changed: &mut Vec<u32>, number: u32, differs: bool) -> Result<(), AllocError>
    ensures { OnOk result (changed.new.items ≡ changed.old.items ++ cond differs (number ∷ []) []) }
{
    if differs {
        changed.push(number)?;
    }
    Ok(())
}

// ---- the draft

/// A draft of an image: the image, which stays as it is, and blocks that are written anew beside it. As a disk it is the image with those
/// blocks in their places.
#[derive(Drop)]
pub struct Draft<'a> {
    /// The image.
    image: &'a Image,
    /// The new block of each of its blocks, if there is one.
    blocks: Vec<Option<NewBlock>>,
}

impl<'a> Model for Draft<'a> {
    ghost use Rattle.lfs_adopt.specs.Draft.{Drafted, IsDraft};

    ghost Value = { Drafted };

    ghost view = { λ d. record { base = d.image.now.disk; blocks = d.blocks.items } };

    ghost invariant = { λ d. IsDraft (record { base = d.image.now.disk; blocks = d.blocks.items }) };
}

impl<'a> Draft<'a> {
    ghost use Rattle.std.specs.Prelude.{◌≡◌, ◌<◌, IfOk};
    ghost use Rattle.lfs_adopt.specs.Changed.{changed_blocks, is_changed};
    ghost use Rattle.lfs_adopt.specs.Draft.{IsDraft, drafted};

    /// A draft of an image without a new block. Takes memory.
    pub fn of(alloc: Global, image: &'a Image) -> Result<Draft<'a>, AllocError>
        ensures base { IfOk result (λ draft. draft.base ≡ image.now.disk) }
        ensures same { IfOk result (λ draft. drafted draft ≡ image.now.disk) }
    {
        let _fits_the_limits = image.size();
        let blocks = no_blocks(alloc, image.count())?;
        Ok(Draft { image, blocks })
    }

    /// Whether a block differs from the image's.
    fn differs(&self, n: u32) -> bool
        requires { n < self.now.base.count }
        ensures { result ≡ is_changed self.now.base (drafted self.now) n }
    {
        put_blocks_stand();
        let _fits_the_limits = self.image.size();
        match &self.blocks[n as usize] {
            Some(block) => self.image.block(n) != block.bytes.as_slice(),
            None => false,
        }
    }

    /// The numbers of the blocks that differ from the image's, in order. Takes memory.
    pub(crate) fn changed(&self, alloc: Global) -> Result<Vec<u32>, AllocError>
        ensures { IfOk result (λ changed. changed.items ≡ changed_blocks self.now.base (drafted self.now)) }
    {
        let mut changed = Vec::new(alloc);
        for number in 0..self.image.count() {
            push_if(&mut changed, number, self.differs(number))?;
        }
        Ok(changed)
    }

    /// The new blocks: for each block of the image the one in its place, if there is one.
    pub fn into_blocks(self) -> Vec<Option<NewBlock>>
        ensures blocks { result.items ≡ self.entry.blocks }
        ensures draft { IsDraft self.entry }
    {
        let Draft { image: _, blocks } = self;
        blocks
    }
}

impl<'a> Blocks for Draft<'a> {
    ghost disk = { drafted };

    fn size(&self) -> u32 {
        put_blocks_stand();
        self.image.size()
    }

    fn count(&self) -> u32 {
        put_blocks_stand();
        self.image.count()
    }

    fn block(&self, n: u32) -> &[u8] {
        put_blocks_stand();
        match &self.blocks[n as usize] {
            Some(block) => block.bytes.as_slice(),
            None => self.image.block(n),
        }
    }
}

impl<'a> Rewrite for Draft<'a> {
    ghost use Rattle.std.specs.Prelude.{◌≡◌, ◌<◌, OnErr, OnOk, length};
    ghost use Rattle.lfs_block.specs.Disk.{put};

    fn rewrite(&mut self, alloc: Global, n: u32, bytes: &[u8]) -> Result<(), AllocError>
        requires within { n < (drafted self.old).count }
        requires complete { length bytes.now ≡ (drafted self.old).size }
        ensures put { OnOk result (drafted self.new ≡ put n bytes.now (drafted self.old)) }
        ensures stays { OnErr result (drafted self.new ≡ drafted self.old) }
        ensures base { self.new.base ≡ self.old.base }
    {
        put_blocks_stand();
        images_are_their_blocks();
        let bytes = bytes.to_vec(alloc)?;
        self.blocks[n as usize] = Some(NewBlock { bytes });
        Ok(())
    }
}

// ---- an image of which blocks are written anew

/// Writes the new blocks of a draft into its image.
pub fn put_drafted(image: &mut Image, blocks: &[Option<NewBlock>])
    requires { IsDraft (record { base = image.old.disk; blocks = blocks.now }) }
    ensures disk { image.new.disk ≡ drafted (record { base = image.old.disk; blocks = blocks.now }) }
    ensures room { image.new.room ≡ image.old.room }
{
    put_blocks_stand();
    for number in 0..image.count() {
        if let Some(block) = &blocks[number as usize] {
            image.write_block(number, &block.bytes);
        }
    }
}
