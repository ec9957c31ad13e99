//! A pair of an image, read.

ghost use Rattle.std.specs.Prelude.{◌≡◌, ◌<◌, Some, All, IfOk, IfErr};
ghost use Rattle.std.specs.List.{AllByRecursion};
ghost use Rattle.lfs_meta.specs.Fits.{EntryFits, RawPartFits};
ghost use Rattle.lfs_meta.specs.Complete.{IsComplete};
ghost use Rattle.lfs_meta.specs.LiveBlock.{part_of, stored_part_of};
ghost use Rattle.lfs_meta.specs.Cause.{DraftCause, ReadCause};

use crate::complete::all_complete;
use crate::live_block::live;
use crate::part::Part;
use crate::part_draft::PartDraft;
use crate::replay::replayed;
use lfs_block::{Blocks, MountFault};
use std::alloc::Global;

/// What a pair of an image holds, by its live block: `NoValidCommit` where no block has a commit, else what `replayed`
/// says.
///
/// Source: SPEC.md, "Metadata pairs".
pub(crate) fn read_draft<'a, B: Blocks>(
    alloc: Global,
    blocks: &'a B,
    pair: (u32, u32),
) -> Result<PartDraft<'a>, MountFault>
    requires first { pair.0 < (B.disk blocks.now).count }
    requires second { pair.1 < (B.disk blocks.now).count }
    ensures found { IfOk result (λ part. part_of (B.disk blocks.now) pair ≡ Some part) }
    ensures fits { IfOk result RawPartFits }
    ensures refused { IfErr result (λ fault. DraftCause fault (B.disk blocks.now) pair) }
{
    let _fits_the_limits = blocks.size();
    let log = live(blocks.block(pair.0), blocks.block(pair.1)).ok_or(MountFault::NoValidCommit)?;
    replayed(alloc, log.tags())
}

/// The part that a pair of an image holds, all of whose entries are complete and fit their tags. It is refused with what
/// `read_draft` says, with `IncompleteEntry` where an entry has no name, no struct or one that its kind doesn't take, and
/// with `BadName` where an entry's kind doesn't take its name. Where several of these hold, one of them is named.
///
/// Source: SPEC.md, "Metadata pairs".
pub fn read_pair<B: Blocks>(alloc: Global, blocks: &B, pair: (u32, u32)) -> Result<Part, MountFault>
    requires first { pair.0 < (B.disk blocks.now).count }
    requires second { pair.1 < (B.disk blocks.now).count }
    ensures pair { IfOk result (λ part. part.0 ≡ pair) }
    ensures found { IfOk result (λ part. stored_part_of (B.disk blocks.now) pair ≡ Some part.1) }
    ensures complete { IfOk result (λ part. AllByRecursion IsComplete part.1.entries) }
    ensures fit { IfOk result (λ part. All EntryFits part.1.entries) }
    ensures refused { IfErr result (λ fault. ReadCause fault (B.disk blocks.now) pair) }
{
    let draft = read_draft(alloc, blocks, pair)?;
    let entries = all_complete(alloc, &draft.entries)?;
    Ok(Part {
        pair,
        entries,
        tail: draft.tail,
        delta: draft.delta,
    })
}
