//! What the system refused.

/// What the system refused.
#[derive(Clone, Copy, Debug, PartialEq, Eq)]
pub struct HostFault;
