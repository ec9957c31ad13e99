//! The system as a host: its files and folders, standard input, standard output and standard error.
#![tactic(auto)]

mod files;
mod folders;
mod one_line;
mod open_folders;
mod plain;
mod standard;
mod terminal;

pub use one_line::{OneLine, has_control};
pub use terminal::Terminal;
