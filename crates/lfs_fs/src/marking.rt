//! Which blocks an outline uses.

ghost use Rattle.std.specs.Prelude.{[], ◌∷◌, sum_by};
ghost use Rattle.lfs_fs.specs.MarksMore.{MarksMore};
ghost use Rattle.lfs_fs.specs.OutlineHeld.{outline_body_held};
ghost use Rattle.lfs_fs.specs.Uses.{body_uses, directory_uses, entry_uses, part_uses, times};

use crate::outline_body::OutlineBody;
use crate::outline_directory::OutlineDirectory;
use crate::outline_entry::OutlineEntry;
use crate::outline_part::OutlinePart;

/// Marks a block, where there is one.
fn mark(used: &mut [bool], block: u32)
    ensures { MarksMore used.old used.new (λ b. times b (block ∷ [])) }
{
    let index = block as usize;
    if index < used.len() {
        used[index] = true;
    }
}

/// Marks blocks.
pub(crate) fn mark_each(used: &mut [bool], blocks: &[u32])
    ensures { MarksMore used.old used.new (λ b. times b blocks.now) }
{
    'each: for block in blocks {
        mark(used, *block);
    }
}

/// Marks the blocks of a chain.
fn mark_body(used: &mut [bool], body: &OutlineBody)
    ensures { MarksMore used.old used.new (λ b. body_uses b (outline_body_held body.now)) }
{
    if let OutlineBody::Chain { blocks, .. } = body {
        mark_each(used, blocks);
    }
}

/// Marks the blocks of entries.
fn mark_entries(used: &mut [bool], entries: &[OutlineEntry])
    ensures { MarksMore used.old used.new (λ b. sum_by (entry_uses b) entries.now) }
{
    'each: for entry in entries {
        mark_body(used, &entry.body);
    }
}

/// Marks the blocks of a part: its pair, and those of its entries.
fn mark_part(used: &mut [bool], part: &OutlinePart)
    ensures { MarksMore used.old used.new (λ b. part_uses b part.now) }
{
    mark(used, part.pair.0);
    mark(used, part.pair.1);
    mark_entries(used, &part.entries);
}

/// Marks the blocks of parts.
fn mark_parts(used: &mut [bool], parts: &[OutlinePart])
    ensures { MarksMore used.old used.new (λ b. sum_by (part_uses b) parts.now) }
{
    'each: for part in parts {
        mark_part(used, part);
    }
}

/// Marks the blocks of a directory.
fn mark_directory(used: &mut [bool], directory: &OutlineDirectory)
    ensures { MarksMore used.old used.new (λ b. directory_uses b directory.now) }
{
    mark_part(used, &directory.parts.first);
    mark_parts(used, &directory.parts.more);
}

/// Marks the blocks that directories use.
pub(crate) fn mark_directories(used: &mut [bool], directories: &[OutlineDirectory])
    ensures { MarksMore used.old used.new (λ b. sum_by (directory_uses b) directories.now) }
{
    'each: for directory in directories {
        mark_directory(used, directory);
    }
}
