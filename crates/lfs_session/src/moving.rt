//! Several changes that are taken back or made again at once.

use crate::session::Session;
use lfs_history::StepFault;

impl Session {
    ghost use Rattle.std.specs.Prelude.{◌≡◌, ◌<◌, length, IfErr, OnOk};
    ghost use Rattle.lfs_history.specs.declared.step_fault.StepFault.TheVariants.{NothingToUndo, NothingToRedo};
    ghost use Rattle.lfs_history.specs.Moves.{Undoes, Redoes, Repeats};

    /// Takes the latest changes back, `steps` of them or none. `NothingToUndo` where fewer were made that aren't undone, which
    /// leaves all as it was.
    pub fn undo_steps(&mut self, steps: u32) -> Result<(), StepFault>
        ensures done { OnOk result (Repeats Undoes steps self.old self.new) }
        ensures refused { IfErr result (λ fault. (fault ≡ NothingToUndo) × (length self.old.past < steps) × (self.new ≡ self.old)) }
    {
        if self.undoable() < steps as usize {
            return Err(StepFault::NothingToUndo);
        }
        for _ in 0..steps {
            self.undo()?;
        }
        Ok(())
    }

    /// Makes again the latest changes that were undone, `steps` of them or none. `NothingToRedo` where there are fewer, which
    /// leaves all as it was.
    pub fn redo_steps(&mut self, steps: u32) -> Result<(), StepFault>
        ensures done { OnOk result (Repeats Redoes steps self.old self.new) }
        ensures refused { IfErr result (λ fault. (fault ≡ NothingToRedo) × (length self.old.future < steps) × (self.new ≡ self.old)) }
    {
        if self.redoable() < steps as usize {
            return Err(StepFault::NothingToRedo);
        }
        for _ in 0..steps {
            self.redo()?;
        }
        Ok(())
    }
}
