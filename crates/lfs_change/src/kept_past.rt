//! Steps that undos take back.

ghost use Rattle.std.specs.Prelude.{◌↔◌, map, IsTrue};
ghost use Rattle.std.specs.List.{AllByRecursion};
ghost use Rattle.lfs_history.specs.Meaning.{step_of};
ghost use Rattle.lfs_change.specs.KeptPast.{AllButLast, KeepsPast};

use lfs_history::Move;

/// Whether a step is a command that keeps all earlier images, so that an undo takes it back.
fn keeps_past(step: &Move<'_>) -> bool
    ensures { IsTrue result ↔ KeepsPast (step_of step.now) }
{
    matches!(step, Move::Do { keep: None, .. })
}

/// Whether all steps are such commands.
fn keep_past(steps: &[Move<'_>]) -> bool
    ensures { IsTrue result ↔ AllByRecursion (λ step. KeepsPast (step_of step)) steps.now }
{
    steps.iter().all(|step| keeps_past(step))
}

/// Whether all steps but the last are such commands.
pub(crate) fn fronts_keep_past(steps: &[Move<'_>]) -> bool
    ensures { IsTrue result → AllButLast (map step_of steps.now) }
{
    match steps.split_last() {
        Some((_, fronts)) => keep_past(fronts),
        None => true,
    }
}
