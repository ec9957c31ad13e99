//! What is known of a host.

ghost use Rattle.lfs_host.specs.Scene.{Scene, unknown};

/// A host of which something is known, or nothing: its files, what is left on standard input, what was printed and how much of that was
/// handed on; what there is under each name, if links aren't followed; what was made in new folders so far, in order; which names this
/// run has claimed, and whether it has read a file without that; whether a lock was withheld, and which calls were refused. What the
/// system refuses is its own affair.
pub trait Known {
    ghost known: { Self → Scene } = { λ _. unknown };
}
