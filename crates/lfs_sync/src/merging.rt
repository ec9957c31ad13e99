//! The rows of an image and of a folder, merged in the order of their paths.

use crate::commanding::bytes_at;
use crate::comparing::{same_contents, same_kind};
use crate::held_row::HeldRow;
use crate::planned::{Planned, PlannedKind};
use crate::planning::planned;
use crate::sync_row::SyncRow;
use crate::wanted_row::WantedRow;
use lfs_block::Blocks;
use lfs_listing::order_of;
use std::alloc::{AllocError, Global};
use std::cmp::Ordering;

/// Rows of an image and of a folder that are merged: the places of those at hand, and what is planned of the others.
#[derive(Drop)]
pub(crate) struct Merging {
    /// The place of the image's row at hand.
    pub(crate) held: usize,
    /// The place of the folder's.
    pub(crate) wanted: usize,
    /// What is removed, in the order of paths.
    pub(crate) removed: Vec<Planned>,
    /// The directories that are made.
    pub(crate) directories: Vec<Planned>,
    /// The files that are put.
    pub(crate) files: Vec<Planned>,
}

impl Merging {
    ghost use Rattle.std.specs.Prelude.{◌≡◌, ◌<◌, ◌==◌, [], List, OnOk, false, length};
    ghost use Rattle.std.specs.declared.cmp.Ordering.TheVariants.{Equal, Greater, Less};
    ghost use Rattle.lfs_block.specs.Disk.{Disk};
    ghost use Rattle.lfs_listing.specs.Comparing.{IsReadable};
    ghost use Rattle.lfs_sync.specs.Merging.{MergingGoesOn, KeepsPlaces, PlansBoth, PlansHeld, PlansWanted, held_left, left, wanted_left};
    ghost use Rattle.lfs_listing.specs.Below.{names};
    ghost use Rattle.lfs_sync.specs.Sides.{CanBeRead, first_order, held_shown, wanted_shown};
    ghost use Rattle.lfs_sync.specs.declared.held_row.HeldRow.{HeldRow};
    ghost use Rattle.lfs_sync.specs.declared.sync_row.SyncRow.{SyncRow};
    ghost use Rattle.lfs_sync.specs.declared.wanted_row.WantedRow.{WantedRow};

    /// Rows of which none is merged yet.
    pub(crate) fn new(alloc: Global) -> Merging
        ensures held { result.held ≡ 0 }
        ensures wanted { result.wanted ≡ 0 }
        ensures removed { result.removed.items ≡ [] }
        ensures directories { result.directories.items ≡ [] }
        ensures files { result.files.items ≡ [] }
    {
        Merging {
            held: 0,
            wanted: 0,
            removed: Vec::new(alloc),
            directories: Vec::new(alloc),
            files: Vec::new(alloc),
        }
    }

    /// Whether no row is left.
    pub(crate) fn is_done(&self, held: &[HeldRow<'_>], wanted: &[WantedRow<'_>]) -> bool
        ensures { result ≡ (left self.now held.now wanted.now == 0) }
    {
        held.len() <= self.held && wanted.len() <= self.wanted
    }

    /// Whose row at hand comes first; of no rows it never does.
    fn order(&self, held: &[HeldRow<'_>], wanted: &[WantedRow<'_>]) -> Ordering
        ensures { result ≡ first_order (held_left self.now held.now) (wanted_left self.now wanted.now) }
    {
        match (held.get(self.held), wanted.get(self.wanted)) {
            (None, _) => Ordering::Greater,
            (Some(_), None) => Ordering::Less,
            (Some(row), Some(other)) => order_of(&row.path, &other.path),
        }
    }

    /// Plans that a row of the image is removed, if it goes.
    fn plan_removal(
        &mut self,
        alloc: Global,
        at: &[&[u8]],
        row: &HeldRow<'_>,
        goes: bool,
    ) -> Result<(), AllocError>
        ensures places { OnOk result (KeepsPlaces self.old self.new) }
        ensures plans { OnOk result ((d : Disk) (rows : List SyncRow)
            → PlansHeld (names at.now) rows self.old self.new (held_shown d row.now) goes) }
    {
        if !goes {
            return Ok(());
        }
        let removal = planned(alloc, at, &row.path, PlannedKind::Removal)?;
        self.removed.push(removal)?;
        Ok(())
    }

    /// Plans that a row of the folder is made, if it comes.
    fn plan_making(
        &mut self,
        alloc: Global,
        at: &[&[u8]],
        rows: &[SyncRow<'_>],
        row: &WantedRow<'_>,
        comes: bool,
    ) -> Result<(), AllocError>
        ensures places { OnOk result (KeepsPlaces self.old self.new) }
        ensures plans { OnOk result (PlansWanted (names at.now) rows.now self.old self.new (wanted_shown rows.now row.now) comes) }
    {
        if !comes {
            return Ok(());
        }
        if bytes_at(rows, row.place).is_some() {
            let file = planned(alloc, at, &row.path, PlannedKind::File(row.place))?;
            self.files.push(file)?;
            return Ok(());
        }
        let directory = planned(alloc, at, &row.path, PlannedKind::Directory)?;
        self.directories.push(directory)?;
        Ok(())
    }

    /// Plans what differs where both have a row.
    fn plan_change<B: Blocks>(
        &mut self,
        alloc: Global,
        disk: &B,
        at: &[&[u8]],
        rows: &[SyncRow<'_>],
        row: &HeldRow<'_>,
        other: &WantedRow<'_>,
    ) -> Result<(), AllocError>
        requires { IsReadable (B.disk disk.now) row.now.row.entry.body }
        ensures places { OnOk result (KeepsPlaces self.old self.new) }
        ensures plans { OnOk result (PlansBoth (names at.now) rows.now self.old self.new (held_shown (B.disk disk.now) row.now)
            (wanted_shown rows.now other.now)) }
    {
        let bytes = bytes_at(rows, other.place);
        let stays = same_kind(&row.row, bytes);
        let is_there = same_contents(disk, &row.row, bytes);
        self.plan_removal(alloc, at, row, !stays)?;
        self.plan_making(alloc, at, rows, other, !is_there)
    }

    /// Leaves the image's row behind, which the folder doesn't have.
    fn take_held(
        &mut self,
        alloc: Global,
        at: &[&[u8]],
        held: &[HeldRow<'_>],
    ) -> Result<(), AllocError>
        requires { self.old.held < length held.now }
        ensures goes_on { OnOk result ((d : Disk) (rows : List SyncRow) (wanted : List WantedRow)
            → first_order (held_left self.old held.now) (wanted_left self.old wanted) ≡ Less
            → MergingGoesOn d (names at.now) rows self.old self.new held.now wanted) }
        ensures fewer { OnOk result ((wanted : List WantedRow) → left self.new held.now wanted < left self.old held.now wanted) }
    {
        self.plan_removal(alloc, at, &held[self.held], true)?;
        self.held += 1;
        Ok(())
    }

    /// Leaves the folder's row behind, which the image doesn't have.
    fn take_wanted(
        &mut self,
        alloc: Global,
        at: &[&[u8]],
        rows: &[SyncRow<'_>],
        wanted: &[WantedRow<'_>],
    ) -> Result<(), AllocError>
        requires { self.old.wanted < length wanted.now }
        ensures goes_on { OnOk result ((d : Disk) (held : List HeldRow)
            → first_order (held_left self.old held) (wanted_left self.old wanted.now) ≡ Greater
            → MergingGoesOn d (names at.now) rows.now self.old self.new held wanted.now) }
        ensures fewer { OnOk result ((held : List HeldRow) → left self.new held wanted.now < left self.old held wanted.now) }
    {
        self.plan_making(alloc, at, rows, &wanted[self.wanted], true)?;
        self.wanted += 1;
        Ok(())
    }

    /// Leaves both rows behind, which are at one path.
    fn take_both<B: Blocks>(
        &mut self,
        alloc: Global,
        disk: &B,
        at: &[&[u8]],
        rows: &[SyncRow<'_>],
        held: &[HeldRow<'_>],
        wanted: &[WantedRow<'_>],
    ) -> Result<(), AllocError>
        requires held { self.old.held < length held.now }
        requires wanted { self.old.wanted < length wanted.now }
        requires order { first_order (held_left self.old held.now) (wanted_left self.old wanted.now) ≡ Equal }
        requires complete { CanBeRead (B.disk disk.now) held.now }
        ensures goes_on { OnOk result (MergingGoesOn (B.disk disk.now) (names at.now) rows.now self.old self.new held.now wanted.now) }
        ensures fewer { OnOk result (left self.new held.now wanted.now < left self.old held.now wanted.now) }
    {
        self.plan_change(
            alloc,
            disk,
            at,
            rows,
            &held[self.held],
            &wanted[self.wanted],
        )?;
        self.held += 1;
        self.wanted += 1;
        Ok(())
    }

    /// Leaves what is at the least path behind.
    pub(crate) fn take_next<B: Blocks>(
        &mut self,
        alloc: Global,
        disk: &B,
        at: &[&[u8]],
        rows: &[SyncRow<'_>],
        held: &[HeldRow<'_>],
        wanted: &[WantedRow<'_>],
    ) -> Result<(), AllocError>
        requires some { (left self.old held.now wanted.now == 0) ≡ false }
        requires complete { CanBeRead (B.disk disk.now) held.now }
        ensures goes_on { OnOk result (MergingGoesOn (B.disk disk.now) (names at.now) rows.now self.old self.new held.now wanted.now) }
        ensures fewer { OnOk result (left self.new held.now wanted.now < left self.old held.now wanted.now) }
    {
        match self.order(held, wanted) {
            Ordering::Less => self.take_held(alloc, at, held),
            Ordering::Greater => self.take_wanted(alloc, at, rows, wanted),
            Ordering::Equal => self.take_both(alloc, disk, at, rows, held, wanted),
        }
    }
}
