//! An image with its changes, each of which can be taken back exactly.
#![tactic(auto)]

mod agreeing;
mod batching;
mod carried;
mod joining;
mod keeping;
mod known;
mod mounting;
mod moving;
mod opening;
mod refused;
mod replacing;
mod reserving;
mod session;
mod stepping;
mod stopped;
mod unmounted;

pub use lfs_history::{Move, OpenFault, StepFault};
pub use opening::{Changes, read_changes};
pub use refused::Refused;
pub use session::Session;
pub use stepping::run_steps;
pub use stopped::Stopped;
pub use unmounted::Unmounted;
