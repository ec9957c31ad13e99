//! The order in which an outline's entries are listed.

ghost use Rattle.std.specs.Prelude.{IfOk, IfErr};
ghost use Rattle.lfs_fs.specs.Placed.{ArePlaces, rows_of};
ghost use Rattle.lfs_fs.specs.Ordered.{AreCounted, IsWalkable, IsListed, IsWalking, WalkCause};

use crate::directory_table::table_of;
use crate::ordering::Walk;
use crate::outline::Outline;
use crate::place::Place;
use crate::waiting::Waiting;
use lfs_block::MountFault;
use std::alloc::{AllocError, Global};

/// A walk that has listed nothing: the root waits, and no directory was opened.
fn start(alloc: Global, outline: &Outline) -> Result<Walk, AllocError>
    requires { IsWalkable outline.now }
    ensures { IfOk result (λ walk. IsWalking outline.now walk.table.entries walk.order.items walk.waiting walk.opened.items) }
{
    let table = table_of(alloc, &outline.directories)?;
    let opened = vec![in alloc; false; outline.directories.len()]?;
    let waiting = Waiting::root(alloc)?;
    Ok(Walk {
        table,
        opened,
        waiting,
        order: Vec::new(alloc),
    })
}

/// The places of an outline's entries, in the order of their paths: `MissingDirectory` where an entry leads to no
/// directory, `BlockTwice` where a directory has two names, `Orphan` where one is not reached.
pub(crate) fn order_of(alloc: Global, outline: &Outline) -> Result<Vec<Place>, MountFault>
    requires { IsWalkable outline.now }
    ensures listed { IfOk result (λ order. IsListed outline.now (rows_of outline.now order.items)) }
    ensures counted { IfOk result (λ order. AreCounted outline.now (rows_of outline.now order.items)) }
    ensures places { IfOk result (λ order. ArePlaces outline.now order.items) }
    ensures refused { IfErr result (λ fault. WalkCause outline.now fault) }
{
    let mut walk = start(alloc, outline)?;
    while let Some(place) = walk.waiting.take_next()? {
        walk.list(outline, place)?;
    }
    if walk.opened.contains(&false) {
        return Err(MountFault::Orphan);
    }
    let Walk { order, .. } = walk;
    Ok(order)
}
