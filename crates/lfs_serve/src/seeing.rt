//! What is seen of a step before it is run.

use lfs_report::{Seen, Sight};
use lfs_request::Query;
use lfs_step::Step;

/// What is seen of a step.
pub(crate) fn seen_of(step: &Step<'_>) -> Seen {
    let other = match step {
        Step::Ask {
            query: Query::Diff { other, size, .. },
            ..
        } => Sight::of(*size, other),
        _ => Sight::none(),
    };
    let count = match step {
        Step::Format { count, .. } | Step::Pack { count, .. } => Some(*count as usize),
        _ => None,
    };
    Seen { other, count }
}
