//! The tags of a log, replayed.

ghost use Rattle.std.specs.Prelude.{◌≡◌, IfOk, IfErr};
ghost use Rattle.std.specs.List.{AllByRecursion};
ghost use Rattle.lfs_tag.specs.Commit.{IsItem};
ghost use Rattle.lfs_meta.specs.Fits.{RawPartFits};
ghost use Rattle.lfs_meta.specs.Replay.{replay};
ghost use Rattle.lfs_meta.specs.Cause.{TagsCause};

use crate::part_draft::PartDraft;
use lfs_block::MountFault;
use lfs_tag::Tags;
use std::alloc::Global;

/// What the tags of a log leave, one after another: `UnknownTag` where one has a type that isn't known, `BadTag` where
/// one has an id or a length that is refused behind those before it, `Memory` where a growth was. Where several of these
/// hold, one of them is named.
///
/// Source: SPEC.md, "Metadata types".
pub(crate) fn replayed<'a>(alloc: Global, tags: Tags<'a>) -> Result<PartDraft<'a>, MountFault>
    requires { AllByRecursion IsItem tags }
    ensures found { IfOk result (λ part. replay tags.entry ≡ Some part) }
    ensures fits { IfOk result RawPartFits }
    ensures refused { IfErr result (λ fault. TagsCause fault tags.entry) }
{
    let mut part = PartDraft::empty(alloc);
    'replay: for (tag, bytes) in tags {
        part.apply(alloc, tag, bytes)?;
    }
    Ok(part)
}
