//! Where steps stopped.

use lfs_history::StepFault;

/// The first of several steps that is refused.
#[derive(Clone, Copy)]
pub struct Stopped {
    /// How many were taken before it.
    pub at: usize,
    /// Why it is refused.
    pub fault: StepFault,
}
