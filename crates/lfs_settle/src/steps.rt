//! Soft tails led to the pairs that entries name.

ghost use Rattle.std.specs.Prelude.{IfOk};
ghost use Rattle.lfs_settle.specs.Steps.{FindsFirst};

use crate::ended::EndedStep;
use crate::pairs::same_blocks;
use lfs_meta::{Part, Tail};
use std::alloc::{AllocError, Global};
use std::collections::BTreeMap;
use std::marker::Model;

/// Puts the pairs of a list into a table under their blocks, the first one that has a block under it. Takes memory.
fn table_of(alloc: Global, named: &[(u32, u32)]) -> Result<BTreeMap<u32, (u32, u32)>, AllocError>
    ensures { IfOk result (λ table. FindsFirst named.now table.entries) }
{
    let mut table = BTreeMap::new(alloc);
    let mut index = named.len();
    while index > 0 {
        index -= 1;
        let pair = named[index];
        table.insert(pair.0, pair)?;
        table.insert(pair.1, pair)?;
    }
    Ok(table)
}

/// The pairs that entries name, and each under its blocks. Its meaning is the list of the pairs.
#[derive(Drop)]
pub(crate) struct Steps {
    /// The pairs.
    named: Vec<(u32, u32)>,
    /// The first of them that has a block.
    first: BTreeMap<u32, (u32, u32)>,
}

impl Model for Steps {
    ghost use Rattle.std.specs.Prelude.{List};
    ghost use Rattle.lfs_meta.specs.Body.{Pair};
    ghost use Rattle.lfs_settle.specs.Steps.{FindsFirst};

    ghost Value = { List Pair };

    ghost view = { λ s. s.named.items };

    ghost invariant = { λ s. FindsFirst s.named.items s.first.entries };
}

impl Steps {
    ghost use Rattle.std.specs.Prelude.{◌≡◌, IfOk};
    ghost use Rattle.lfs_settle.specs.Ended.{step_of, step_to};
    ghost use Rattle.lfs_settle.specs.InStep.{first_with, in_step_with, stepped_part, stepped_tail};

    /// Those of a list. Takes memory.
    pub(crate) fn of(alloc: Global, named: Vec<(u32, u32)>) -> Result<Steps, AllocError>
        ensures { IfOk result (λ steps. steps ≡ named.items) }
    {
        let first = table_of(alloc, &named)?;
        Ok(Steps { named, first })
    }

    /// The first pair that has a block.
    fn first_with(&self, block: u32) -> Option<(u32, u32)>
        ensures { result ≡ first_with self.now block }
    {
        self.first.get(&block).copied()
    }

    /// The pair that an entry names in the place of this one.
    fn pair(&self, pair: (u32, u32)) -> (u32, u32)
        ensures { result ≡ in_step_with self.now pair }
    {
        match self.first_with(pair.0).or(self.first_with(pair.1)) {
            Some(named) if !same_blocks(pair, named) => named,
            _ => pair,
        }
    }

    /// A tail that leads there.
    fn tail(&self, tail: Tail) -> Tail
        ensures { result ≡ stepped_tail self.now tail }
    {
        match tail {
            Tail::Soft(first, second) => {
                let pair = self.pair((first, second));
                Tail::Soft(pair.0, pair.1)
            }
            _ => tail,
        }
    }

    /// The step from a pair to the one that an entry names in its place, if that is another one.
    fn step_from(&self, from: (u32, u32)) -> Option<EndedStep>
        ensures { result ≡ step_to from (in_step_with self.now from) }
    {
        let to = self.pair(from);
        if same_blocks(from, to) {
            return None;
        }
        Some(EndedStep { from, to })
    }

    /// The step of a tail.
    fn step_of(&self, tail: Tail) -> Option<EndedStep>
        ensures { result ≡ step_of self.now tail }
    {
        match tail {
            Tail::Soft(first, second) => self.step_from((first, second)),
            _ => None,
        }
    }

    /// Lets a part's tail lead there, and says which step that is, if it led elsewhere.
    pub(crate) fn step(&self, part: &mut Part) -> Option<EndedStep>
        ensures part { part.new ≡ (part.old.0, stepped_part self.now part.old.1) }
        ensures step { result ≡ step_of self.now part.old.1.tail }
    {
        let step = self.step_of(part.tail);
        part.tail = self.tail(part.tail);
        step
    }
}
