//! How the entries of a part that overflows are split into runs.

ghost use Rattle.std.specs.Prelude.{◌≡◌, ◌+◌, ◌<◌, ◌≤◌, ◌^◌, map, IfOk};
ghost use Rattle.lfs_meta.specs.Runs.{most_entries, runs_after, run_takes};
ghost use Rattle.lfs_fs.specs.Weight.{weight};

use crate::weighing::weight;
use lfs_fs::OutlineEntry;
use lfs_meta::run_takes;
use std::alloc::{AllocError, Global};

/// Runs of entries, the last of which is at work.
#[derive(Drop)]
struct Splitting {
    // the runs that take no more
    done: Vec<Vec<OutlineEntry>>,
    // the entries of the last run
    run: Vec<OutlineEntry>,
    // what it weighs, with what stood before its entries
    taken: u32,
    // how many entries it has, with what stood before them
    len: usize,
}

impl Splitting {
    ghost use Rattle.std.specs.Prelude.{◌≡◌, ◌≤◌, List, [], ◌∷◌, ◌++◌, map, OnOk};
    ghost use Rattle.lfs_fs.specs.Entry.{Entry};
    ghost use Rattle.lfs_cut.specs.Splitting.{IsSplitTo};

    /// Ends the last run, and begins another one.
    fn next_run(&mut self, alloc: Global) -> Result<(), AllocError>
        ensures done { OnOk result (map (λ run. run.items) self.new.done.items ≡ map (λ run. run.items) self.old.done.items ++ self.old.run.items ∷ []) }
        ensures run { OnOk result (self.new.run.items ≡ []) }
        ensures empty { OnOk result ((self.new.taken ≡ 0) × (self.new.len ≡ 0)) }
    {
        let run = Vec::new(alloc);
        let full = std::mem::replace(&mut self.run, run);
        self.done.push(full)?;
        self.taken = 0;
        self.len = 0;
        Ok(())
    }

    /// Puts an entry into the last run, where that takes it, else into another one.
    fn add(&mut self, alloc: Global, room: u32, entry: OutlineEntry) -> Result<(), AllocError>
        requires room { room ≤ 65536 }
        requires light { self.old.taken ≤ 330244 }
        requires few { self.old.len ≤ most_entries }
        ensures { OnOk result ((complete : List (List Entry)) (left : List Entry)
            → IsSplitTo complete room (map (λ run. run.items) self.old.done.items) self.old.run.items self.old.taken self.old.len (entry ∷ left)
            → IsSplitTo complete room (map (λ run. run.items) self.new.done.items) self.new.run.items self.new.taken self.new.len left) }
    {
        let next = weight(&entry);
        if !run_takes(room, self.taken, self.len, next) {
            self.next_run(alloc)?;
        }
        self.taken += next;
        self.len += 1;
        self.run.push(entry)?;
        Ok(())
    }
}

/// The runs of entries where a block has `room` bytes for them and the first run weighs `taken` and has `len` entries already.
/// A run takes the next entry as long as it weighs no more than the room and has at most 1,000 entries.
pub(crate) fn split(
    alloc: Global,
    entries: Vec<OutlineEntry>,
    room: u32,
    taken: u32,
    len: usize,
) -> Result<Vec<Vec<OutlineEntry>>, AllocError>
    requires room { room ≤ 65536 }
    requires light { taken ≤ 330244 }
    requires few { len ≤ most_entries }
    ensures { IfOk result (λ runs. map (λ run. run.items) runs.items ≡ runs_after weight room taken len entries.items) }
{
    let mut splitting = Splitting {
        done: Vec::new(alloc),
        run: Vec::new(alloc),
        taken,
        len,
    };
    'each: for entry in entries {
        splitting.add(alloc, room, entry)?;
    }
    splitting.next_run(alloc)?;
    let Splitting { done, .. } = splitting;
    Ok(done)
}
