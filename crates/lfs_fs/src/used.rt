//! The table of used blocks: one flag a block.

ghost use Rattle.std.specs.Prelude.{[], ◌∷◌, OnOk, IfErr};
ghost use Rattle.lfs_fs.specs.Used.{AddsBlocks, AreMarked, AreTaken};

use lfs_block::MountFault;

/// Marks a block: `BlockRange` where there is none, `BlockTwice` where it is marked.
fn mark(used: &mut [bool], block: u32) -> Result<(), MountFault>
    ensures marked { OnOk result (AddsBlocks used.old used.new (block ∷ [])) }
    ensures refused { IfErr result (λ fault. AreTaken fault used.old (block ∷ [])) }
{
    let index = block as usize;
    if index >= used.len() {
        return Err(MountFault::BlockRange);
    }
    if used[index] {
        return Err(MountFault::BlockTwice);
    }
    used[index] = true;
    Ok(())
}

/// Takes the mark off a block.
pub(crate) fn unmark(used: &mut [bool], block: u32)
    requires { AreMarked used.old (block ∷ []) }
    ensures { AddsBlocks used.new used.old (block ∷ []) }
{
    used[block as usize] = false;
}

/// Marks blocks: `BlockRange` where there isn't one of them, `BlockTwice` where one is marked or stands twice. After a
/// refusal the table is of no use.
pub fn mark_all(used: &mut [bool], blocks: &[u32]) -> Result<(), MountFault>
    ensures marked { OnOk result (AddsBlocks used.old used.new blocks.now) }
    ensures refused { IfErr result (λ fault. AreTaken fault used.old blocks.now) }
{
    'each: for block in blocks {
        mark(used, *block)?;
    }
    Ok(())
}
