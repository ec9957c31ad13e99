//! The latest elements of a list.

ghost use Rattle.std.specs.Prelude.{◌≡◌, ◌-◌, length, drop};
ghost use Rattle.lfs_history.specs.Moves.{kept_changes};

use lfs_block::Patch;

/// Drops all patches of a list but the last, of which `keep` are kept, and answers how many are left.
fn keep_last(patches: &mut Vec<Patch>, keep: usize) -> usize
    ensures kept { patches.new.items ≡ drop (length patches.old.items - keep) patches.old.items }
    ensures left { result ≡ length patches.new.items }
{
    let dropped = patches.len().saturating_sub(keep);
    patches.drain(..dropped);
    patches.len()
}

/// Keeps the latest patches of a list, as many as are said, or all of them for `None`, and answers how many are left.
pub(crate) fn keep_latest(patches: &mut Vec<Patch>, keep: Option<u32>) -> usize
    ensures kept { patches.new.items ≡ kept_changes keep patches.old.items }
    ensures left { result ≡ length patches.new.items }
{
    match keep {
        Some(keep) => keep_last(patches, keep as usize),
        None => patches.len(),
    }
}
