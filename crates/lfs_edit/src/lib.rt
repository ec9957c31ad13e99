//! New images and changes of images.
#![tactic(auto)]

mod carried;
mod carrying;
mod carrying_laws;
mod carrying_out;
mod formatting;
mod patching;
mod planning;

pub use carried::Carried;
pub use carrying::carry;
pub use carrying_out::carry_out;
pub use formatting::{format, format_within};
pub use lfs_command::{Asked, Command, Refusal};
pub use planning::plan;
