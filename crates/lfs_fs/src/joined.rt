//! Directories as their parts are joined.

ghost use Rattle.std.specs.Prelude.{◌≡◌, ◌++◌, OnOk};
ghost use Rattle.lfs_fs.specs.Gathering.{as_directory};
ghost use Rattle.lfs_fs.specs.Thread.{is_hard};

use crate::delta::Delta;
use crate::following::come_last;
use crate::keeping_parts::kept_part;
use crate::known_part::KnownPart;
use crate::limits::Limits;
use crate::outline_directory::OutlineDirectory;
use crate::outline_part::OutlinePart;
use crate::pushing::push;
use crate::used_files::mark_files;
use lfs_block::{Blocks, MountFault};
use lfs_meta::{Part, Tail};
use std::alloc::{AllocError, Global};
use std::mem::replace;

/// What is kept of the parts so far: the directories that have ended, the parts of the one that goes on, and the exclusive or of the
/// deltas of all.
#[derive(Drop)]
pub(crate) struct Joined {
    /// The directories that have ended.
    pub(crate) directories: Vec<OutlineDirectory>,
    /// The parts of the one that goes on.
    pub(crate) parts: Vec<OutlinePart>,
    /// The exclusive or of the deltas.
    pub(crate) state: Delta,
}

/// Whether the thread goes on in the same directory.
fn is_hard(tail: Tail) -> bool
    ensures { result ≡ is_hard tail }
{
    matches!(tail, Tail::Hard(..))
}

/// Puts parts behind the others as one directory, if there are any. Takes memory.
fn push_directory(
    alloc: Global,
    directories: &mut Vec<OutlineDirectory>,
    mut parts: Vec<OutlinePart>,
) -> Result<(), AllocError>
    ensures pushed { OnOk result (directories.new.items ≡ directories.old.items ++ as_directory parts.items) }
{
    if parts.is_empty() {
        return Ok(());
    }
    let first = parts.remove(0);
    push(directories, OutlineDirectory::new(alloc, first, parts)?)?;
    Ok(())
}

impl Joined {
    ghost use Rattle.std.specs.Prelude.{◌≡◌, ◌++◌, [], Bool, IfOk, IfErr, OnOk, length};
    ghost use Rattle.std.specs.List.{AllByRecursion};
    ghost use Rattle.lfs_block.specs.Disk.{IsDisk};
    ghost use Rattle.lfs_meta.specs.Complete.{IsComplete};
    ghost use Rattle.lfs_fs.specs.Gathering.{EntriesCause, Joins, KeepsNext, as_directory, part_entries};
    ghost use Rattle.lfs_fs.specs.Reading.{reading_of};
    ghost use Rattle.lfs_fs.specs.Reread.{TakesOver};
    ghost use Rattle.lfs_fs.specs.Sound.{Rise};

    /// Before the first part.
    pub(crate) fn new(alloc: Global) -> Joined
        ensures directories { result.directories.items ≡ [] }
        ensures parts { result.parts.items ≡ [] }
        ensures state { result.state ≡ 0 }
    {
        Joined {
            directories: Vec::new(alloc),
            parts: Vec::new(alloc),
            state: Delta::none(),
        }
    }

    /// Puts a part behind those of its directory, which goes on behind it or ends with it. One that is alone needs no list.
    fn join(&mut self, alloc: Global, part: OutlinePart, goes_on: bool) -> Result<(), AllocError>
        ensures joins { OnOk result (Joins goes_on part self.old self.new) }
        ensures state { self.new.state ≡ self.old.state }
    {
        if !goes_on && self.parts.is_empty() {
            let directory = OutlineDirectory::new(alloc, part, Vec::new(alloc))?;
            return push(&mut self.directories, directory);
        }
        push(&mut self.parts, part)?;
        if !goes_on {
            let parts = replace(&mut self.parts, Vec::new(alloc));
            push_directory(alloc, &mut self.directories, parts)?;
        }
        Ok(())
    }

    /// Keeps a part behind those so far, and marks the blocks of its files: what one of its entries is refused for, or `OrderFault` where a
    /// name of its directory doesn't come after the one before.
    pub(crate) fn keep<B: Blocks>(
        &mut self,
        alloc: Global,
        blocks: &B,
        limits: Limits,
        used: &mut [bool],
        part: Part,
    ) -> Result<(), MountFault>
        requires disk { IsDisk (B.disk blocks.now) }
        requires len { length used.old ≡ (B.disk blocks.now).count }
        requires complete { AllByRecursion IsComplete part.1.entries }
        requires rise { Rise (part_entries self.old.parts.items) }
        ensures kept { OnOk result (KeepsNext (reading_of (B.disk blocks.now)) limits used.old used.new part self.old self.new) }
        ensures refused { IfErr result (λ fault. EntriesCause fault (reading_of (B.disk blocks.now)) limits used.old
            (part_entries self.old.parts.items) part.1.entries) }
    {
        let goes_on = is_hard(part.tail);
        self.state = self.state.joined(&Delta::of(&part.delta));
        let kept = kept_part(alloc, blocks, limits, used, &self.parts, part)?;
        self.join(alloc, kept, goes_on)?;
        Ok(())
    }

    /// Puts a known part behind those so far, and marks the blocks of its files: `OrderFault` where its names don't come after
    /// those of its directory, `BlockTwice` where a block of its files is marked.
    pub(crate) fn take_over(
        &mut self,
        alloc: Global,
        used: &mut [bool],
        known: KnownPart,
    ) -> Result<(), MountFault>
        requires rise { Rise (part_entries self.old.parts.items) }
        requires entries { Rise known.part.entries }
        ensures { OnOk result (TakesOver used.old used.new known self.old self.new) }
    {
        let KnownPart { part, tail } = known;
        if !come_last(&self.parts, &part.entries) {
            return Err(MountFault::OrderFault);
        }
        mark_files(used, &part.entries)?;
        self.state = self.state.joined(&part.delta);
        self.join(alloc, part, is_hard(tail))?;
        Ok(())
    }

    /// The directories, the one that goes on as the last of them. Takes memory.
    pub(crate) fn into_directories(self, alloc: Global) -> Result<Vec<OutlineDirectory>, AllocError>
        ensures directories { IfOk result (λ all. all.items ≡ self.directories.items ++ as_directory self.parts.items) }
    {
        let Joined {
            mut directories,
            parts,
            ..
        } = self;
        push_directory(alloc, &mut directories, parts)?;
        Ok(directories)
    }
}
