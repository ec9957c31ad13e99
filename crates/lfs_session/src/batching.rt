//! Steps that are taken up to the first that is refused.

use crate::session::Session;
use crate::stopped::Stopped;
use lfs_history::Move;
use std::alloc::Global;

impl Session {
    ghost use Rattle.std.specs.Prelude.{map, IfErr, OnOk};
    ghost use Rattle.std.specs.List.{AllByRecursion};
    ghost use Rattle.lfs_history.specs.Batch.{StopsAt, TakesAll};
    ghost use Rattle.lfs_history.specs.Meaning.{step_of};
    ghost use Rattle.lfs_history.specs.Taking.{KeepsInRange};

    /// Takes steps, one after another, up to the first that is refused, and says which that is. Those before it are taken, and it
    /// leaves all as they left it.
    pub fn take_all(&mut self, alloc: Global, steps: &[Move<'_>]) -> Result<(), Stopped>
        requires { AllByRecursion (λ step. KeepsInRange (step_of step)) steps.now }
        ensures done { OnOk result (TakesAll (map step_of steps.now) self.old self.new) }
        ensures refused { IfErr result (λ stopped. StopsAt (map step_of steps.now) stopped.at stopped.fault self.old self.new) }
    {
        for (at, step) in steps.iter().enumerate() {
            if let Err(fault) = self.step(alloc, step) {
                return Err(Stopped { at, fault });
            }
        }
        Ok(())
    }
}
