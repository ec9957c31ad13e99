//! The global state of an image.

ghost use Rattle.std.specs.Prelude.{◌≡◌, OnOk, IfErr};
ghost use Rattle.lfs_fs.specs.Gathering.{StateCause};

use crate::delta::Delta;
use lfs_block::MountFault;

/// Judges the state that parts leave: `UnfinishedMove` where it has the type of a move, else `Orphan` where it says that
/// there may be directories that are not reached, else `UnknownState` where it isn't zero.
pub(crate) fn settled(state: &Delta) -> Result<(), MountFault>
    ensures settled { OnOk result (state.now ≡ 0) }
    ensures refused { IfErr result (λ fault. StateCause fault state.now) }
{
    if state.move_type() != 0 {
        return Err(MountFault::UnfinishedMove);
    }
    if state.orphan_bit() != 0 {
        return Err(MountFault::Orphan);
    }
    if !state.is_none() {
        return Err(MountFault::UnknownState);
    }
    Ok(())
}
