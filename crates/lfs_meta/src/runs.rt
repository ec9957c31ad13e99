//! Laws of runs of entries of any type: each function does nothing, and its contract is the law.

ghost use Rattle.lfs_meta.specs.RunLaws.{OneCut, RunsAreGreedy, RunsBehindFirst, RunsFollowWeights, RunsJoin, SomeRun};

/// There are runs of entries that each fit a pair: they join to them, each run fits a pair, no run could take the first entry of the
/// next one, and only an empty list has an empty run.
pub fn runs_are_greedy<E>()
    ensures { RunsAreGreedy E }
{}

/// A list is cut so in one way: the laws' `AreRuns` says which runs they are.
pub fn runs_are_the_only_ones<E>()
    ensures { OneCut E }
{}

/// However they begin, the runs of a list join to it.
pub fn runs_join<E>()
    ensures { RunsJoin E }
{}

/// Behind an entry that fits a pair, the runs of a list are those that begin with its weight and one entry.
pub fn runs_behind_first<E>()
    ensures { RunsBehindFirst E }
{}

/// Each list has a run.
pub fn lists_have_a_run<E>()
    ensures { SomeRun E }
{}

/// Lists of entries that weigh the same at each place are cut at the same places.
pub fn runs_follow_weights<E, F>()
    ensures { RunsFollowWeights E F }
{}
