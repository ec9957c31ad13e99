//! Whether blocks that are flagged are of a part.

ghost use Rattle.std.specs.Prelude.{◌↔◌, IsTrue};
ghost use Rattle.lfs_fs.specs.OutlineHeld.{outline_body_held};
ghost use Rattle.lfs_fs.specs.Reread.{BodyIsLeft, IsLeft, PartIsLeft};

use crate::outline_body::OutlineBody;
use crate::outline_part::OutlinePart;

/// Whether there is a flag for a block, and it isn't set.
fn is_left(flags: &[bool], block: u32) -> bool
    ensures { IsTrue result ↔ IsLeft flags.now block }
{
    let index = block as usize;
    index < flags.len() && !flags[index]
}

/// Whether no block of a file's chain is flagged.
fn body_is_left(flags: &[bool], body: &OutlineBody) -> bool
    ensures { IsTrue result ↔ BodyIsLeft flags.now (outline_body_held body.now) }
{
    match body {
        OutlineBody::Chain { blocks, .. } => blocks.iter().all(|block| is_left(flags, *block)),
        _ => true,
    }
}

/// Whether no block of a part's pair, and of its files, is flagged.
pub(crate) fn part_is_left(flags: &[bool], part: &OutlinePart) -> bool
    ensures { IsTrue result ↔ PartIsLeft flags.now part.now }
{
    is_left(flags, part.pair.0)
        && is_left(flags, part.pair.1)
        && part
            .entries
            .iter()
            .all(|entry| body_is_left(flags, &entry.body))
}
