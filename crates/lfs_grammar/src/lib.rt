//! The grammar of the program's command line, and how words are read by it.
#![tactic(auto)]

mod argument;
mod grammar;
mod hyphens;
mod reading;

pub use grammar::{FORMAT_USAGE, GROW_USAGE, PACK_USAGE, REPACK_USAGE, command_line};
pub use hyphens::{dashed, names_files_plainly};
pub use reading::matched;
