//! A request on a host's files: what the program does, but for the words that ask for it.
#![tactic(auto)]

mod batching;
mod later_read;
mod laws;
mod noting;
mod packing;
mod plain_operations;
mod repacking;
mod seeing;
mod serving;
mod stepping;
mod tree_operations;
mod unfinished;

pub use laws::requests_lead_on;
pub use serving::served;
