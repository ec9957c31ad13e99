//! Blocks that hold parts by themselves.

ghost use Rattle.std.specs.Prelude.{◌≡◌, ◌<◌, ◌++◌, [], ◌∷◌, cond, true, length, slice_index_or, slice_set, IfOk, OnOk};
ghost use Rattle.lfs_meta.specs.BodyHeld.{body_held};
ghost use Rattle.lfs_survey.specs.Lone.{HoldsAs, alone, body_pairs, entries_pairs, is_lone, lone_pairs, marked_by, marked_of_all, part_pairs, tail_pairs, unmarked_pairs};

use crate::looking::{is_closed, is_open};
use lfs_block::{Blocks, MountFault};
use lfs_meta::{Body, Entry, Part, Tail, read_pair, unread_pairs_hold_no_part};
use std::alloc::{AllocError, Global};

/// Sets a block's flag, if the table has it.
fn set_within(table: &mut [bool], block: u32, flag: bool)
    ensures { table.new ≡ slice_set table.old block flag }
{
    let index = block as usize;
    if index < table.len() {
        table[index] = flag;
    }
}

/// Marks the blocks of a pair, if the table has them.
fn mark_both(table: &mut [bool], first: u32, second: u32)
    ensures { table.new ≡ marked_by table.old ((first, second) ∷ []) }
{
    set_within(table, first, true);
    set_within(table, second, true);
}

/// Marks the blocks that a body leads to.
fn mark_body(table: &mut [bool], body: &Body)
    ensures { table.new ≡ marked_by table.old (body_pairs (body_held body.now)) }
{
    if let Body::Directory(first, second) = body {
        mark_both(table, *first, *second);
    }
}

/// Marks the blocks that entries lead to.
fn mark_entries(table: &mut [bool], entries: &[Entry])
    ensures { table.new ≡ marked_by table.old (entries_pairs entries.now) }
{
    'each: for entry in entries {
        mark_body(table, &entry.body);
    }
}

/// Marks the blocks of a tail.
fn mark_tail(table: &mut [bool], tail: Tail)
    ensures { table.new ≡ marked_by table.old (tail_pairs tail) }
{
    match tail {
        Tail::End => {}
        Tail::Soft(first, second) | Tail::Hard(first, second) => mark_both(table, first, second),
    }
}

/// Marks the blocks that a part names.
fn mark_named(table: &mut [bool], part: &Part)
    ensures { table.new ≡ marked_by table.old (part_pairs part.now.1) }
{
    mark_entries(table, &part.entries);
    mark_tail(table, part.tail);
}

/// Marks the blocks that the part of a block names, but for that block.
fn mark_others(table: &mut [bool], block: u32, part: &Part)
    ensures { table.new ≡ slice_set (marked_by table.old (part_pairs part.now.1)) block (slice_index_or table.old block true) }
{
    let own = is_closed(table, block);
    mark_named(table, part);
    set_within(table, block, own);
}

/// What a pair holds, if it holds a part.
fn part_at<B: Blocks>(
    alloc: Global,
    blocks: &B,
    pair: (u32, u32),
) -> Result<Option<Part>, AllocError>
    requires first { pair.0 < (B.disk blocks.now).count }
    requires second { pair.1 < (B.disk blocks.now).count }
    ensures { IfOk result (HoldsAs (B.disk blocks.now) pair) }
{
    unread_pairs_hold_no_part();
    match read_pair(alloc, blocks, pair) {
        Ok(part) => Ok(Some(part)),
        Err(fault) => match fault {
            MountFault::Memory => Err(AllocError),
            _ => Ok(None),
        },
    }
}

/// Adds a block as a pair, if it wasn't looked at and holds a part by itself, and marks the other blocks that this part names.
fn add_lone<B: Blocks>(
    alloc: Global,
    blocks: &B,
    looked: &[bool],
    block: u32,
    pairs: &mut Vec<(u32, u32)>,
    named: &mut [bool],
) -> Result<(), AllocError>
    requires len { length looked.now ≡ (B.disk blocks.now).count }
    ensures pairs { OnOk result (pairs.new.items ≡ pairs.old.items
        ++ cond (is_lone (B.disk blocks.now) looked.now (alone block)) (alone block ∷ []) []) }
    ensures named { OnOk result (named.new ≡ marked_of_all (B.disk blocks.now) named.old
        (cond (is_lone (B.disk blocks.now) looked.now (alone block)) (alone block ∷ []) [])) }
{
    let pair = (block, block);
    if !is_open(looked, pair) {
        return Ok(());
    }
    let Some(part) = part_at(alloc, blocks, pair)? else {
        return Ok(());
    };
    mark_others(named, block, &part);
    pairs.push(pair)?;
    Ok(())
}

/// The blocks that weren't looked at and hold parts by themselves, as pairs. The other blocks that each of these parts names are marked in
/// `named`.
pub(crate) fn find_lone<B: Blocks>(
    alloc: Global,
    blocks: &B,
    looked: &[bool],
    named: &mut [bool],
) -> Result<Vec<(u32, u32)>, AllocError>
    requires len { length looked.now ≡ (B.disk blocks.now).count }
    ensures pairs { IfOk result (λ pairs. pairs.items ≡ lone_pairs (B.disk blocks.now) looked.now (B.disk blocks.now).count) }
    ensures named { IfOk result (λ pairs. named.new ≡ marked_of_all (B.disk blocks.now) named.old pairs.items) }
{
    let mut pairs = Vec::new(alloc);
    for block in 0..blocks.count() {
        add_lone(alloc, blocks, looked, block, &mut pairs, named)?;
    }
    Ok(pairs)
}

/// The pairs whose first block isn't marked.
pub(crate) fn unmarked_of(
    alloc: Global,
    pairs: &[(u32, u32)],
    table: &[bool],
) -> Result<Vec<(u32, u32)>, AllocError>
    ensures { IfOk result (λ left. left.items ≡ unmarked_pairs table.now pairs.now) }
{
    let mut left = Vec::new(alloc);
    'each: for pair in pairs {
        if !is_closed(table, pair.0) {
            left.push(*pair)?;
        }
    }
    Ok(left)
}
