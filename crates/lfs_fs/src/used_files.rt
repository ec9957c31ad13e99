//! The blocks of files in the table of used blocks.

ghost use Rattle.std.specs.Prelude.{OnOk, sum_by};
ghost use Rattle.lfs_fs.specs.OutlineHeld.{outline_body_held};
ghost use Rattle.lfs_fs.specs.Used.{MarksBeside};
ghost use Rattle.lfs_fs.specs.Uses.{body_uses, entry_uses};

use crate::outline_body::OutlineBody;
use crate::outline_entry::OutlineEntry;
use crate::used::mark_all;
use lfs_block::MountFault;

/// Marks the blocks of a chain: `BlockRange` where there isn't one of them, `BlockTwice` where one is marked.
fn mark_file(used: &mut [bool], body: &OutlineBody) -> Result<(), MountFault>
    ensures { OnOk result (MarksBeside used.old used.new (λ b. body_uses b (outline_body_held body.now))) }
{
    match body {
        OutlineBody::Chain { blocks, .. } => mark_all(used, blocks),
        _ => Ok(()),
    }
}

/// Marks the blocks of the files among entries: `BlockRange` where there isn't one of them, `BlockTwice` where one is marked.
/// After a refusal the table is of no use.
pub(crate) fn mark_files(used: &mut [bool], entries: &[OutlineEntry]) -> Result<(), MountFault>
    ensures { OnOk result (MarksBeside used.old used.new (λ b. sum_by (entry_uses b) entries.now)) }
{
    'each: for entry in entries {
        mark_file(used, &entry.body)?;
    }
    Ok(())
}
