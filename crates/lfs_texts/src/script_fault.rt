//! Where a script asks for no step.

use crate::flaw::Flaw;
use crate::line_fault::LineFault;

/// The first line of a script that asks for no step, and why.
#[derive(Clone, Copy, Debug, PartialEq, Eq)]
pub struct ScriptFault {
    /// The line's number, from 1 on.
    pub number: usize,
    /// Why it asks for none.
    pub fault: LineFault,
    /// What is wrong in it, but for want of memory.
    pub flaw: Option<Flaw>,
}
