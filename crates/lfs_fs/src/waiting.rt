//! The places that wait in a walk.

use crate::place::Place;
use crate::pushing::push;
use crate::waiting_entries::WaitingEntries;
use std::alloc::{AllocError, Global};
use std::marker::Model;

/// The places that wait in a walk, the next one first. Those of a part's entries are held together, so that they take no more memory than
/// there are parts. Its meaning is the list of the places.
#[derive(Drop)]
pub(crate) struct Waiting {
    /// Those of the next place last.
    entries: Vec<WaitingEntries>,
}

impl Model for Waiting {
    ghost use Rattle.std.specs.Prelude.{List, flat_map, reverse};
    ghost use Rattle.std.specs.List.{AllByRecursion};
    ghost use Rattle.lfs_fs.specs.declared.place.Place.{Place};
    ghost use Rattle.lfs_fs.specs.Waiting.{IsWaiting, waiting_in};

    ghost Value = { List Place };

    ghost view = { λ w. flat_map waiting_in (reverse w.entries.items) };

    ghost invariant = { λ w. AllByRecursion IsWaiting (reverse w.entries.items) };
}

impl Waiting {
    ghost use Rattle.std.specs.Prelude.{◌≡◌, ◌++◌, ◌∷◌, [], IfOk, OnOk};
    ghost use Rattle.lfs_fs.specs.Placed.{places_from};
    ghost use Rattle.lfs_fs.specs.Waiting.{TakesNext};

    /// The place of the root, which has no entry, is the only one that waits.
    pub(crate) fn root(alloc: Global) -> Result<Waiting, AllocError>
        ensures { IfOk result (λ waiting. waiting ≡ record { depth = 0; directory = 0; part = 0; entry = 0 } ∷ []) }
    {
        let root = WaitingEntries {
            depth: 0,
            directory: 0,
            part: 0,
            next: 0,
            end: 1,
        };
        Ok(Waiting {
            entries: vec![in alloc; root]?,
        })
    }

    /// Takes the next place, if one waits. Takes memory.
    pub(crate) fn take_next(&mut self) -> Result<Option<Place>, AllocError>
        ensures taken { IfOk result (λ place. TakesNext place self.old self.new) }
    {
        let Some(entries) = self.entries.pop() else {
            return Ok(None);
        };
        if let Some(behind) = entries.behind() {
            push(&mut self.entries, behind)?;
        }
        Ok(Some(entries.place()))
    }

    /// Puts the places of a part's entries before the others. Takes memory.
    pub(crate) fn push_part(
        &mut self,
        depth: u16,
        directory: u16,
        part: u16,
        len: u16,
    ) -> Result<(), AllocError>
        ensures pushed { OnOk result (self.new ≡ places_from depth directory part 0 len ++ self.old) }
    {
        if len == 0 {
            return Ok(());
        }
        let entries = WaitingEntries {
            depth,
            directory,
            part,
            next: 0,
            end: len,
        };
        push(&mut self.entries, entries)
    }
}
