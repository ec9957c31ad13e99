//! The thread of the directories that stay.

ghost use Rattle.std.specs.Prelude.{◌≡◌, ◌++◌, [], IfOk, OnOk, cond, flat_map, length, map, not};
ghost use Rattle.lfs_settle.specs.Ended.{as_dropped};
ghost use Rattle.lfs_settle.specs.Reaching.{flagged};
ghost use Rattle.lfs_settle.specs.Settled.{cleared, ending, threaded, without_share};
ghost use Rattle.lfs_settle.specs.Threading.{put_after};

use crate::dropping::push_dropped;
use crate::ended::DroppedDirectory;
use crate::moved::state_of;
use lfs_meta::{Part, Tail};
use std::alloc::{AllocError, Global};

/// Gives the last of parts a tail.
pub fn end_with(parts: &mut Vec<Part>, tail: Tail)
    ensures { parts.new.items ≡ ending tail parts.old.items }
{
    if let Some(last) = parts.last_mut() {
        last.tail = tail;
    }
}

/// Puts the parts of a directory after a thread, whose last tail leads to them. Takes memory.
fn put_after(thread: &mut Vec<Part>, group: Vec<Part>) -> Result<(), AllocError>
    ensures { OnOk result (thread.new.items ≡ put_after thread.old.items group.items) }
{
    let mut group = group;
    let Some(first) = group.first() else {
        return Ok(());
    };
    let pair = first.pair;
    end_with(thread, Tail::Soft(pair.0, pair.1));
    end_with(&mut group, Tail::End);
    thread.append(&mut group)?;
    Ok(())
}

/// Does so if the directory stays, and else puts it after those that are dropped. Takes memory.
fn put_or_drop(
    alloc: Global,
    thread: &mut Vec<Part>,
    dropped: &mut Vec<DroppedDirectory>,
    group: Vec<Part>,
    stays: bool,
) -> Result<(), AllocError>
    ensures thread { OnOk result (thread.new.items ≡ cond stays (put_after thread.old.items group.items) thread.old.items) }
    ensures dropped { OnOk result (dropped.new.items ≡ dropped.old.items ++ cond stays [] (as_dropped group.items)) }
{
    if stays {
        return put_after(thread, group);
    }
    push_dropped(alloc, dropped, group)
}

/// The directories that have a flag, as one thread, and those that have none. Takes memory.
pub(crate) fn threaded(
    alloc: Global,
    groups: Vec<Vec<Part>>,
    flags: &[bool],
) -> Result<(Vec<Part>, Vec<DroppedDirectory>), AllocError>
    requires { length flags.now ≡ length groups.items }
    ensures thread { IfOk result (λ made. made.0.items ≡ threaded (flagged flags.now (map (λ g. g.items) groups.items))) }
    ensures dropped { IfOk result (λ made. made.1.items
        ≡ flat_map as_dropped (flagged (map not flags.now) (map (λ g. g.items) groups.items))) }
{
    let mut thread = Vec::new(alloc);
    let mut dropped = Vec::new(alloc);
    let mut number = 0;
    'each: for group in groups {
        put_or_drop(alloc, &mut thread, &mut dropped, group, flags[number])?;
        number += 1;
    }
    Ok((thread, dropped))
}

// ---- the shares

/// Takes a part's share of the state off it.
fn clear_part(part: &mut Part)
    ensures { part.new ≡ without_share part.old }
{
    part.delta = [0; 12];
}

/// Takes the shares off parts.
pub fn clear_all(parts: &mut Vec<Part>)
    ensures { parts.new.items ≡ map without_share parts.old.items }
{
    for part in parts.iter_mut() {
        clear_part(part);
    }
}

/// Takes the shares of the state off parts, unless they cancel each other.
pub(crate) fn clear(parts: &mut Vec<Part>)
    ensures { parts.new.items ≡ cleared parts.old.items }
{
    if state_of(parts).is_none() {
        return;
    }
    clear_all(parts);
}
