//! Commands that are planned one by one.

ghost use Rattle.std.specs.Prelude.{◌≡◌, ◌++◌, ◌∷◌, [], List, IfOk};
ghost use Rattle.lfs_fs.specs.Path.{path_text};
ghost use Rattle.lfs_sync.specs.Planned.{kind_asked, plan_asked, planned_asked};
ghost use Rattle.lfs_listing.specs.Below.{names};
ghost use Rattle.lfs_sync.specs.declared.sync_row.SyncRow.{SyncRow};

use crate::planned::{Planned, PlannedKind};
use crate::texts::text_of;
use std::alloc::{AllocError, Global};

/// A command on a path behind another.
pub(crate) fn planned(
    alloc: Global,
    prefix: &[&[u8]],
    rest: &[&[u8]],
    kind: PlannedKind,
) -> Result<Planned, AllocError>
    ensures { IfOk result (λ one. (rows : List SyncRow) → planned_asked rows one
        ≡ kind_asked rows (path_text (names prefix.now ++ names rest.now)) kind) }
{
    let text = text_of(alloc, prefix, rest)?;
    Ok(Planned { text, kind })
}

/// A plan of one command, on the path of a text.
pub(crate) fn alone(
    alloc: Global,
    text: &[u8],
    kind: PlannedKind,
) -> Result<Vec<Planned>, AllocError>
    ensures { IfOk result (λ plan. (rows : List SyncRow) → plan_asked rows plan.items ≡ kind_asked rows text.now kind ∷ []) }
{
    let text = Vec::from_slice(alloc, text)?;
    let mut plan = Vec::new(alloc);
    plan.push(Planned { text, kind })?;
    Ok(plan)
}
