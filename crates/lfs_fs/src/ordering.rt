//! The state of a walk over the directories of an outline, and its step.

ghost use Rattle.std.specs.Prelude.{◌≡◌, ◌≤◌, ◌∷◌, IfOk, IfErr, OnOk, ◌⊎◌, length, ◌<◌};
ghost use Rattle.std.specs.Prelude.{IfSome};
ghost use Rattle.lfs_block.specs.declared.mount_fault.MountFault.TheVariants as MountFault;
ghost use Rattle.lfs_fs.specs.DirectoryTable.{look_up};
ghost use Rattle.lfs_fs.specs.DirectoryTable.{IsTableOf};
ghost use Rattle.lfs_fs.specs.Ordered.{Enters, IsWalking, NotOpened, OpensDirectory, WalkCause, work};

use crate::outline::Outline;
use crate::place::Place;
use crate::placing::{push_directory, target_of};
use crate::pushing::push;
use crate::waiting::Waiting;
use lfs_block::MountFault;
use std::collections::BTreeMap;

/// A walk: where the directories stand and which of them were opened, the places that wait, and the order so far.
#[derive(Drop)]
pub(crate) struct Walk {
    /// Where each directory stands, under its first pair, the lesser block first.
    pub(crate) table: BTreeMap<(u32, u32), usize>,
    /// Which directories were opened.
    pub(crate) opened: Vec<bool>,
    /// The places that wait.
    pub(crate) waiting: Waiting,
    /// The places so far.
    pub(crate) order: Vec<Place>,
}

/// Opens a directory: `MissingDirectory` where there is none, `BlockTwice` where it was opened before.
fn open(
    table: &BTreeMap<(u32, u32), usize>,
    opened: &mut Vec<bool>,
    pair: (u32, u32),
) -> Result<usize, MountFault>
    requires { IfSome (look_up pair table.now.entries) (λ i. i < length opened.old.items) }
    ensures opened { IfOk result (λ i. OpensDirectory table.now.entries pair opened.old.items opened.new.items i) }
    ensures refused { IfErr result (λ fault. NotOpened table.now.entries pair opened.old.items fault) }
{
    let Some(&index) = table.get(&pair) else {
        return Err(MountFault::MissingDirectory);
    };
    if opened[index] {
        return Err(MountFault::BlockTwice);
    }
    opened[index] = true;
    Ok(index)
}

impl Walk {
    /// Opens a directory, and lets its entries wait.
    fn enter(&mut self, outline: &Outline, depth: usize, pair: (u32, u32)) -> Result<(), MountFault>
        requires table { IsTableOf outline.now.directories self.old.table.entries }
        requires len { length self.old.opened.items ≡ length outline.now.directories }
        ensures entered { OnOk result (Enters outline.now.directories self.old.table.entries pair depth
            self.old.opened.items self.new.opened.items self.old.waiting self.new.waiting) }
        ensures order { self.new.order ≡ self.old.order }
        ensures table { self.new.table ≡ self.old.table }
        ensures refused { IfErr result (λ fault. (fault ≡ MountFault.Memory) ⊎ NotOpened self.old.table.entries pair self.old.opened.items fault) }
    {
        let index = open(&self.table, &mut self.opened, pair)?;
        push_directory(&mut self.waiting, depth, index, &outline.directories[index])?;
        Ok(())
    }

    /// Lists a place, and lets what stands below it wait.
    pub(crate) fn list(&mut self, outline: &Outline, place: Place) -> Result<(), MountFault>
        requires walking { IsWalking outline.now self.old.table.entries self.old.order.items (place ∷ self.old.waiting) self.old.opened.items }
        ensures listed { OnOk result (IsWalking outline.now
            self.new.table.entries self.new.order.items self.new.waiting self.new.opened.items) }
        ensures refused { IfErr result (λ fault. WalkCause outline.now fault) }
        ensures less { OnOk result (work outline.now self.new.waiting self.new.opened.items
            ≤ work outline.now self.old.waiting self.old.opened.items) }
    {
        if let Some(pair) = target_of(outline, place) {
            self.enter(outline, usize::from(place.depth) + 1, pair)?;
        }
        push(&mut self.order, place)?;
        Ok(())
    }
}
