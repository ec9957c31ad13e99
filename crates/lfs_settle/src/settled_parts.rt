//! What a device's next change leaves of the parts along a thread.

ghost use Rattle.std.specs.Prelude.{◌≡◌, ◌≤◌, ℕ, IfOk, map};
ghost use Rattle.lfs_fs.specs.Front.{pairs_name};
ghost use Rattle.lfs_settle.specs.Ended.{dropped_of, moved_of};
ghost use Rattle.lfs_settle.specs.Settled.{settled_parts};

use crate::ended::{Ended, EndedStep};
use crate::groups::grouped;
use crate::moved::{state_of, unmove};
use crate::reached::reached;
use crate::threading::{clear, threaded};
use lfs_meta::Part;
use std::alloc::{AllocError, Global};

/// What stays of the parts along a thread: the moved entry is gone, and so are the directories that no path leads to then, and no state is
/// left. Beside it stands what is ended so, with the steps of the thread's tails. Takes memory.
pub(crate) fn settled_parts(
    alloc: Global,
    parts: Vec<Part>,
    steps: Vec<EndedStep>,
) -> Result<(Vec<Part>, Ended), AllocError>
    requires { (b : ℕ) → pairs_name b (map (λ p. p.0) parts.items) ≤ 1 }
    ensures parts { IfOk result (λ made. made.0.items ≡ settled_parts parts.items) }
    ensures moved { IfOk result (λ made. made.1.moved ≡ moved_of parts.items) }
    ensures dropped { IfOk result (λ made. made.1.dropped.items ≡ dropped_of parts.items) }
    ensures steps { IfOk result (λ made. made.1.steps.items ≡ steps.items) }
{
    let mut parts = parts;
    let state = state_of(&parts);
    let moved = unmove(&state, &mut parts);
    let groups = grouped(alloc, parts)?;
    let flags = reached(alloc, &groups)?;
    let (thread, dropped) = threaded(alloc, groups, &flags)?;
    let mut thread = thread;
    clear(&mut thread);
    let ended = Ended {
        moved,
        dropped,
        steps,
    };
    Ok((thread, ended))
}
