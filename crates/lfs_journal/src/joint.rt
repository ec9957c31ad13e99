//! Several patches as one.

use crate::copying::all_copied;
use crate::laying::lay_over;
use lfs_block::{Patch, Record};
use std::alloc::{AllocError, Global};
use std::marker::Model;

/// Patches that were made one after another, as one patch: a block's bytes before are those of the first patch that names it, and its
/// bytes after those of the last. Its meaning is a `ChangeSet`.
#[derive(Drop)]
pub struct Joint {
    size: u32,
    before: u32,
    after: u32,
    records: Vec<Record>,
}

impl Model for Joint {
    ghost use Rattle.lfs_block.specs.Patch.{ChangeSet, IsGrowth};

    ghost Value = { ChangeSet };

    ghost view = { λ j. record { size = j.size; before = j.before; after = j.after; changes = j.records.items } };

    ghost invariant = { λ j. IsGrowth (record { size = j.size; before = j.before; after = j.after; changes = j.records.items }) };
}

impl Joint {
    ghost use Rattle.std.specs.Prelude.{◌≡◌, IfOk, OnOk, OnErr};
    ghost use Rattle.lfs_block.specs.Patch.{IsGrowth};
    ghost use Rattle.lfs_journal.specs.Joined.{composed};

    /// A patch that others are to be laid over.
    pub fn of(alloc: Global, patch: &Patch) -> Result<Joint, AllocError>
        ensures same { IfOk result (λ joint. joint ≡ patch.now) }
        ensures growth { IfOk result (λ joint. IsGrowth joint) }
    {
        let records = all_copied(alloc, patch.records())?;
        Ok(Joint {
            size: patch.size(),
            before: patch.before(),
            after: patch.after(),
            records,
        })
    }

    /// Lays a patch over those that it is. Want of memory leaves it as it was.
    pub fn lay(&mut self, alloc: Global, change: &Patch) -> Result<(), AllocError>
        requires { IsGrowth (composed self.old change.now) }
        ensures done { OnOk result (self.new ≡ composed self.old change.now) }
        ensures unchanged { OnErr result (self.new ≡ self.old) }
    {
        let changes = all_copied(alloc, change.records())?;
        self.records.reserve(changes.len())?;
        lay_over(&mut self.records, changes);
        self.after = change.after();
        Ok(())
    }

    /// The patch that it is.
    pub fn into_patch(self) -> Patch
        ensures { result ≡ self }
    {
        let Joint {
            size,
            before,
            after,
            records,
        } = self;
        Patch::of(size, before, after, records)
    }
}
