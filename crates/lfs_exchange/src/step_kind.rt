//! What a step is to an image and its journal.

ghost use Rattle.std.specs.Prelude.{◌≡◌};
ghost use Rattle.lfs_exchange.specs.StepKind.{kind_of_query, kind_of_steps};

use lfs_history::Move;
use lfs_request::Query;

/// What a step is to an image and its journal.
#[derive(Clone, Copy)]
pub enum StepKind {
    /// It makes a new one.
    Makes,
    /// It asks something of it.
    Asks,
    /// It asks something of the changes in its journal.
    Recounts,
    /// It changes it, and its journal with it.
    Changes,
    /// It changes its journal alone.
    Forgets,
    /// It takes it over as a device left it, and says which blocks change.
    Adopts,
}

/// The kind of what is asked.
pub fn kind_of_query<O>(query: &Query<'_, O>) -> StepKind
    ensures { result ≡ kind_of_query query.now }
{
    match query {
        Query::Log => StepKind::Recounts,
        Query::Check { .. }
        | Query::Ls { .. }
        | Query::Blocks { .. }
        | Query::Cat { .. }
        | Query::Diff { .. } => StepKind::Asks,
    }
}

/// The kind of steps on a history: they change both files; none at all ask whether there is an image.
pub fn kind_of_steps(steps: &[Move<'_>]) -> StepKind
    ensures { result ≡ kind_of_steps steps.now }
{
    match steps {
        [] => StepKind::Asks,
        [_, ..] => StepKind::Changes,
    }
}
