//! A law of requests on a host's files in memory; and tests of folders that are read and made, and a law of those that are read. What
//! requests make of files, and how they end where a write or a renaming fails, is tested by `tests/journals.py`, `tests/batch.py` and
//! `tests/rows.py`, over the program.
#![tactic(auto)]

mod asking;
#[cfg(test)]
mod left_journals;
#[cfg(test)]
mod memory_folders;
mod memory_rows;
#[cfg(test)]
mod recorders;
#[cfg(test)]
mod shelves;
#[cfg(test)]
mod taking_over;

pub use asking::ask_in_memory;
pub use memory_rows::rows_in_memory;
