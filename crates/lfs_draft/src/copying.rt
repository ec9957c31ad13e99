//! Copies of entries.

ghost use Rattle.std.specs.Prelude.{◌≡◌, ◌<◌, IfOk, length};
ghost use Rattle.lfs_fs.specs.OutlineHeld.{outline_body_held};
ghost use Rattle.lfs_command.specs.Edited.{renamed};

use lfs_fs::{OutlineBody, OutlineEntry};
use lfs_meta::copied_attributes;
use std::alloc::{AllocError, Global};

/// A copy of what says where contents are.
fn copied_body(alloc: Global, body: &OutlineBody) -> Result<OutlineBody, AllocError>
    ensures { IfOk result (λ copy. outline_body_held copy ≡ outline_body_held body.now) }
{
    Ok(match body {
        OutlineBody::Inline(bytes) => OutlineBody::Inline(Vec::from_slice(alloc, bytes)?),
        OutlineBody::Chain { blocks, size } => OutlineBody::Chain {
            blocks: Vec::from_slice(alloc, blocks)?,
            size: *size,
        },
        OutlineBody::Directory(first, second) => OutlineBody::Directory(*first, *second),
    })
}

/// A copy of an entry under another name.
pub(crate) fn renamed(
    alloc: Global,
    entry: &OutlineEntry,
    name: &[u8],
) -> Result<OutlineEntry, AllocError>
    requires { length name.now < 1023 }
    ensures { IfOk result (λ copy. copy ≡ renamed name.now entry.now) }
{
    Ok(OutlineEntry {
        name: Vec::from_slice(alloc, name)?,
        body: copied_body(alloc, &entry.body)?,
        attributes: copied_attributes(alloc, &entry.attributes)?,
    })
}
