//! A move that a device began: its state, and the entry that it moved.

ghost use Rattle.std.specs.Prelude.{◌≡◌, ◌==◌, ◌&&◌, ◌||◌, cond, count_by, length, map, nat_lt, not, slice_get};
ghost use Rattle.std.specs.List.{list_all};
ghost use Rattle.lfs_fs.specs.Gathering.{delta_from};
ghost use Rattle.lfs_settle.specs.Ended.{first_moved, moved_in};
ghost use Rattle.lfs_settle.specs.InStep.{has_block, meets};
ghost use Rattle.lfs_settle.specs.Moved.{can_end, finds_moved, has_moved, means, unmoved, without_at};

use crate::ended::EndedMove;
use crate::state::State;
use lfs_fs::Delta;
use lfs_meta::{Entry, Part};

/// The exclusive or of the shares of parts.
fn sum_of(parts: &[Part]) -> Delta
    ensures { result ≡ delta_from parts.now }
{
    let mut sum = Delta::none();
    for part in parts {
        sum = sum.joined(&Delta::of(&part.delta));
    }
    sum
}

/// The state that parts leave.
pub(crate) fn state_of(parts: &[Part]) -> State
    ensures { result ≡ delta_from parts.now }
{
    State::of(&sum_of(parts).to_bytes())
}

/// Whether parts leave no state: they have no shares, or these cancel each other.
pub fn have_no_state(parts: &[Part]) -> bool
    ensures { result ≡ (delta_from parts.now == 0) }
{
    state_of(parts).is_none()
}

// ---- the entry

fn has_block(pair: (u32, u32), block: u32) -> bool
    ensures { result ≡ has_block pair block }
{
    block == pair.0 || block == pair.1
}

/// Whether two pairs have a block in common.
fn meets(one: (u32, u32), other: (u32, u32)) -> bool
    ensures { result ≡ meets one other }
{
    has_block(one, other.0) || has_block(one, other.1)
}

/// Whether the move may mean a pair.
fn means(state: &State, pair: (u32, u32)) -> bool
    ensures { result ≡ means state.now pair }
{
    meets(pair, state.moved_pair())
}

/// Whether a part, if the move may mean it, has the entry that was moved.
fn has_moved(state: &State, part: &Part) -> bool
    ensures { result ≡ has_moved state.now part.now }
{
    !means(state, part.pair) || state.moved_entry() < part.entries.len()
}

/// One for what is true, and none for what isn't.
fn one_if(is: bool) -> usize
    ensures { result ≡ cond is 1 0 }
{
    if is { 1 } else { 0 }
}

/// How many parts the move may mean.
fn meant(state: &State, parts: &[Part]) -> usize
    ensures { result ≡ count_by (λ p. means state.now p.0) parts.now }
{
    let mut count = 0;
    for part in parts {
        count += one_if(means(state, part.pair));
    }
    count
}

/// Whether each part that the move may mean has the entry that was moved.
fn all_have_moved(state: &State, parts: &[Part]) -> bool
    ensures { result ≡ list_all (λ p. has_moved state.now p) parts.now }
{
    parts.iter().all(|part| has_moved(state, part))
}

/// Whether the move means one part, which has the entry that was moved.
fn finds_moved(state: &State, parts: &[Part]) -> bool
    ensures { result ≡ finds_moved state.now parts.now }
{
    meant(state, parts) == 1 && all_have_moved(state, parts)
}

/// Whether the state is one that a device ends.
pub(crate) fn can_end(state: &State, parts: &[Part]) -> bool
    ensures { result ≡ can_end state.now parts.now }
{
    state.is_none() || (state.is_move() && finds_moved(state, parts)) || state.says_orphans()
}

/// Takes the entry of a number out, if there is one.
#[tactic(auto, using(crate::proofs::MovedEntry::without_removed, crate::proofs::MovedEntry::without_past))]
fn remove_at(entries: &mut Vec<Entry>, number: usize) -> Option<Entry>
    ensures left { entries.new.items ≡ without_at number entries.old.items }
    ensures taken { result ≡ slice_get entries.old.items number }
{
    if number >= entries.len() {
        return None;
    }
    Some(entries.remove(number))
}

/// Takes the moved entry out of a part, if it is the one that the move means.
fn unmove_part(state: &State, part: &mut Part) -> Option<EndedMove>
    ensures left { part.new ≡ unmoved state.now part.old }
    ensures moved { result ≡ moved_in state.now part.old }
{
    let pair = part.pair;
    if state.is_move() && means(state, pair) {
        let entry = remove_at(&mut part.entries, state.moved_entry())?;
        return Some(EndedMove { pair, entry });
    }
    None
}

/// Takes the moved entry out of parts, and hands out the first one.
pub(crate) fn unmove(state: &State, parts: &mut Vec<Part>) -> Option<EndedMove>
    ensures left { parts.new.items ≡ map (unmoved state.now) parts.old.items }
    ensures moved { result ≡ first_moved state.now parts.old.items }
{
    let mut moved = None;
    for part in parts.iter_mut() {
        moved = moved.or(unmove_part(state, part));
    }
    moved
}
