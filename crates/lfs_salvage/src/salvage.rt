//! What is known of what is saved of an image.

use crate::block_use::BlockUse;
use crate::file_body::FileBody;
use crate::parent::Parent;
use crate::unsaved::{Unsaved, Why};
use lfs_survey::{Area, Found};
use std::alloc::{AllocError, Global};

/// What is known of what is saved of an image so far.
#[derive(Drop)]
pub struct Salvage {
    /// What each block is used for.
    pub uses: Vec<BlockUse>,
    /// The entries that aren't saved, in the order in which they are come to.
    pub unsaved: Vec<Unsaved>,
}

impl Salvage {
    ghost use Rattle.std.specs.Prelude.{◌≡◌, ◌+◌, ◌<◌, ◌^◌, [], ◌++◌, IfOk, OnOk, length, slice_set};
    ghost use Rattle.lfs_salvage.specs.Fate.{uses_by_chain, settled, uses_behind};
    ghost use Rattle.lfs_salvage.specs.FateHeld.{fate_held};
    ghost use Rattle.lfs_salvage.specs.PartsUsed.{areas_uses, uses_by_part, parts_uses, uses_at_first};
    ghost use Rattle.lfs_salvage.specs.Unsaved.{nameless, unsaved};

    /// Nothing is saved yet of an image of so many blocks, of which these areas are found: the blocks of their parts are in use, and no
    /// others. Takes memory.
    pub(crate) fn new(alloc: Global, count: u32, areas: &[Area]) -> Result<Salvage, AllocError>
        ensures uses { IfOk result (λ salvage. salvage.uses.items ≡ uses_at_first count areas.now) }
        ensures unsaved { IfOk result (λ salvage. salvage.unsaved.items ≡ []) }
    {
        let mut salvage = Salvage {
            uses: vec![in alloc; BlockUse::Free; count as usize]?,
            unsaved: Vec::new(alloc),
        };
        salvage.mark_areas(0, areas);
        Ok(salvage)
    }

    /// Marks the blocks of the parts that areas have, of which the first has this number.
    pub(crate) fn mark_areas(&mut self, first: usize, areas: &[Area])
        requires few { first + length areas.now < 2 ^ 64 }
        ensures uses { self.new.uses.items ≡ areas_uses self.old.uses.items first areas.now }
        ensures unsaved { self.new.unsaved ≡ self.old.unsaved }
    {
        'each: for (number, area) in areas.iter().enumerate() {
            self.mark_parts(first + number, &area.found);
        }
    }

    /// Marks the blocks of the parts that an area has.
    fn mark_parts(&mut self, area: usize, found: &[Found])
        ensures uses { self.new.uses.items ≡ parts_uses self.old.uses.items area 0 found.now }
        ensures unsaved { self.new.unsaved ≡ self.old.unsaved }
    {
        'each: for (call, here) in found.iter().enumerate() {
            self.mark_part(area, call, here);
        }
    }

    /// Marks the blocks of a part.
    fn mark_part(&mut self, area: usize, call: usize, found: &Found)
        ensures uses { self.new.uses.items ≡ uses_by_part self.old.uses.items area call found.now }
        ensures unsaved { self.new.unsaved ≡ self.old.unsaved }
    {
        if let Found::Part(part) = found {
            self.mark(part.pair.0, BlockUse::Part { area, call });
            self.mark(part.pair.1, BlockUse::Part { area, call });
        }
    }

    /// Marks a block, where it is the table's.
    fn mark(&mut self, block: u32, as_use: BlockUse)
        ensures uses { self.new.uses.items ≡ slice_set self.old.uses.items block as_use }
        ensures unsaved { self.new.unsaved ≡ self.old.unsaved }
    {
        let index = block as usize;
        if index < self.uses.len() {
            self.uses[index] = as_use;
        }
    }

    /// Marks the blocks of a chain.
    fn mark_chain(&mut self, blocks: &[u32])
        ensures uses { self.new.uses.items ≡ uses_by_chain self.old.uses.items blocks.now }
        ensures unsaved { self.new.unsaved ≡ self.old.unsaved }
    {
        'each: for block in blocks {
            self.mark(*block, BlockUse::Chain);
        }
    }

    /// Marks the blocks of a file that is saved, and its last one with what is known of it.
    fn settle_chain(&mut self, head: u32, as_head: BlockUse, blocks: &[u32])
        ensures uses { self.new.uses.items ≡ settled self.old.uses.items head as_head blocks.now }
        ensures unsaved { self.new.unsaved ≡ self.old.unsaved }
    {
        if !blocks.is_empty() {
            self.mark_chain(blocks);
            self.mark(head, as_head);
        }
    }

    /// Marks the blocks of an entry that stands here, where its file is saved.
    pub(crate) fn settle(&mut self, parent: Parent, body: &FileBody)
        ensures uses { self.new.uses.items ≡ uses_behind self.old.uses.items parent (fate_held body.now) }
        ensures unsaved { self.new.unsaved ≡ self.old.unsaved }
    {
        if let FileBody::Chain { head, blocks, size } = body {
            self.settle_chain(
                *head,
                BlockUse::Head {
                    parent,
                    size: *size,
                },
                blocks,
            );
        }
    }

    /// Keeps an entry that stands here, where its file isn't saved, and why.
    pub(crate) fn keep_unsaved(&mut self, parent: Parent, body: &FileBody) -> Result<(), AllocError>
        ensures unsaved { OnOk result (self.new.unsaved.items ≡ self.old.unsaved.items ++ unsaved parent (fate_held body.now)) }
        ensures uses { self.new.uses ≡ self.old.uses }
    {
        let why = match body {
            FileBody::Lost(fault) => Why::Fault(*fault),
            FileBody::Elsewhere(other) => Why::Elsewhere(*other),
            FileBody::Inline => return Ok(()),
            FileBody::Chain { .. } => return Ok(()),
            FileBody::Passed => return Ok(()),
        };
        self.unsaved.push(Unsaved { parent, why })?;
        Ok(())
    }

    /// Keeps an entry that stands here, if the host can't have a name for it.
    pub(crate) fn keep_nameless(
        &mut self,
        parent: Parent,
        is_nameless: bool,
    ) -> Result<(), AllocError>
        ensures unsaved { OnOk result (self.new.unsaved.items ≡ self.old.unsaved.items ++ nameless parent is_nameless) }
        ensures uses { self.new.uses ≡ self.old.uses }
    {
        if is_nameless {
            self.unsaved.push(Unsaved {
                parent,
                why: Why::Name,
            })?;
        }
        Ok(())
    }
}
