//! Commands of a plan.

ghost use Rattle.std.specs.Prelude.{◌≡◌, [], IfOk, map};
ghost use Rattle.std.specs.Option.{option_map, unwrap_or};
ghost use Rattle.lfs_command.specs.AskedFor.{asked_for};
ghost use Rattle.lfs_command.specs.Command.{bounded};
ghost use Rattle.lfs_sync.specs.Planned.{plan_asked, planned_asked};
ghost use Rattle.lfs_sync.specs.SyncRows.{bytes_at};

use crate::planned::{Planned, PlannedKind};
use crate::sync_row::SyncRow;
use lfs_command::{Asked, Command};
use std::alloc::{AllocError, Global};

/// The contents of the row at a place; a directory's row has none, and neither has a place behind the last row.
pub(crate) fn bytes_at<'a>(rows: &[SyncRow<'a>], place: usize) -> Option<&'a [u8]>
    ensures { option_map (λ b. b.now) result ≡ bytes_at rows.now place }
{
    rows.get(place)?.bytes
}

/// What a planned command asks for. A file that is put stands in its entry if it has at most `most` bytes.
fn command_of<'a>(planned: &'a Planned, rows: &[SyncRow<'a>], most: u32) -> Asked<'a>
    ensures { asked_for result ≡ bounded most (planned_asked rows.now planned.now) }
{
    let path = planned.text.as_slice();
    match planned.kind {
        PlannedKind::Removal => Command::Rm { path },
        PlannedKind::Directory => Command::Mkdir { path },
        PlannedKind::File(place) => {
            let bytes = bytes_at(rows, place).unwrap_or(&[]);
            Command::Put { path, bytes, most }
        }
    }
}

/// The commands of a plan, in its order, which borrow its texts and the contents of the rows that it was made of. A file that is put
/// stands in its entry if it has at most `most` bytes.
pub fn commands_of<'a>(
    alloc: Global,
    plan: &'a [Planned],
    rows: &[SyncRow<'a>],
    most: u32,
) -> Result<Vec<Asked<'a>>, AllocError>
    ensures { IfOk result (λ commands. map asked_for commands.items ≡ map (bounded most) (plan_asked rows.now plan.now)) }
{
    let mut commands = Vec::new(alloc);
    'each: for planned in plan {
        commands.push(command_of(planned, rows, most))?;
    }
    Ok(commands)
}
