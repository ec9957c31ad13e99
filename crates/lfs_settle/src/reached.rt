//! The directories that a path from the root leads to.

ghost use Rattle.std.specs.Prelude.{◌≡◌, ◌<◌, IfOk, IfSome, List, OnOk, Some, cond, length, map, not};
ghost use Rattle.lfs_meta.specs.Body.{Pair};
ghost use Rattle.lfs_fs.specs.DirectoryTable.{look_up};
ghost use Rattle.lfs_fs.specs.Gathering.{PairPart};
ghost use Rattle.lfs_fs.specs.Pair.{unordered};
ghost use Rattle.lfs_settle.specs.Reached.{reached_of, unreached_of};
ghost use Rattle.lfs_settle.specs.Reaching.{AreApart, AreListed, FlagsNamed, FlagsOne, begins_with, flagged};

use crate::pairs::{pairs_named, unordered};
use lfs_fs::ROOT;
use lfs_meta::Part;
use std::alloc::{AllocError, Global};
use std::collections::BTreeMap;

// ---- the table

/// Puts the number of a directory into a table under its first pair, the lesser block first. Takes memory.
fn list_group(
    table: &mut BTreeMap<(u32, u32), usize>,
    number: usize,
    group: &[Part],
) -> Result<(), AllocError>
    ensures { OnOk result ((k : Pair) → look_up k table.new.entries ≡ cond (begins_with k group.now) (Some number) (look_up k table.old.entries)) }
{
    let Some(first) = group.first() else {
        return Ok(());
    };
    table.insert(unordered(first.pair), number)?;
    Ok(())
}

/// Where each directory stands, under its first pair. Takes memory.
fn table_of(alloc: Global, groups: &[Vec<Part>]) -> Result<BTreeMap<(u32, u32), usize>, AllocError>
    ensures { IfOk result (λ table. AreListed (map (λ g. g.items) groups.now) table.entries) }
{
    let mut table = BTreeMap::new(alloc);
    let mut number = 0;
    for group in groups {
        list_group(&mut table, number, group)?;
        number += 1;
    }
    Ok(table)
}

// ---- the walk

/// Flags the directory of a pair, the lesser block first, which then waits, unless it has a flag. Takes memory.
fn flag(
    table: &BTreeMap<(u32, u32), usize>,
    reached: &mut Vec<bool>,
    waiting: &mut Vec<usize>,
    pair: (u32, u32),
) -> Result<(), AllocError>
    requires { IfSome (look_up pair table.now.entries) (λ i. i < length reached.old.items) }
    ensures { OnOk result (FlagsOne (look_up pair table.now.entries) reached.old.items reached.new.items waiting.old.items waiting.new.items) }
{
    let Some(&number) = table.get(&pair) else {
        return Ok(());
    };
    if reached[number] {
        return Ok(());
    }
    waiting.push(number)?;
    reached[number] = true;
    Ok(())
}

/// Flags the directories of pairs. Takes memory.
fn flag_each(
    table: &BTreeMap<(u32, u32), usize>,
    reached: &mut Vec<bool>,
    waiting: &mut Vec<usize>,
    named: &[(u32, u32)],
) -> Result<(), AllocError>
    requires { (k : Pair) → IfSome (look_up k table.now.entries) (λ i. i < length reached.old.items) }
    ensures { OnOk result ((gs : List (List PairPart)) → AreListed gs table.now.entries → AreApart gs → length reached.old.items ≡ length gs
        → FlagsNamed gs named.now reached.old.items reached.new.items waiting.old.items waiting.new.items) }
{
    for pair in named {
        flag(table, reached, waiting, unordered(*pair))?;
    }
    Ok(())
}

/// Which directories a path from the root leads to: those that begin at the root's pair, or at one that an entry of such a directory
/// names. Takes memory.
pub(crate) fn reached(alloc: Global, groups: &Vec<Vec<Part>>) -> Result<Vec<bool>, AllocError>
    requires { AreApart (map (λ g. g.items) groups.now.items) }
    ensures reached { IfOk result (λ flags. flagged flags.items (map (λ g. g.items) groups.now.items) ≡ reached_of (map (λ g. g.items) groups.now.items)) }
    ensures left { IfOk result (λ flags. flagged (map not flags.items) (map (λ g. g.items) groups.now.items)
        ≡ unreached_of (map (λ g. g.items) groups.now.items)) }
    ensures len { IfOk result (λ flags. length flags.items ≡ length groups.now.items) }
{
    let table = table_of(alloc, groups)?;
    let mut reached = vec![in alloc; false; groups.len()]?;
    let mut waiting = Vec::new(alloc);
    flag_each(&table, &mut reached, &mut waiting, &[ROOT])?;
    'walk: while let Some(number) = waiting.pop() {
        let named = pairs_named(alloc, &groups[number])?;
        flag_each(&table, &mut reached, &mut waiting, &named)?;
    }
    Ok(reached)
}
