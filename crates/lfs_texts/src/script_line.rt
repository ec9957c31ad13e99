//! A line of a script.

use lfs_history::{Move, Source};

/// A line of a script that asks for a step.
#[derive(Drop)]
pub struct ScriptLine<'a> {
    /// The line's number, from 1 on.
    pub number: usize,
    /// The step that it asks for.
    pub step: Move<'a, Source<'a>>,
}
