//! Files in skip-lists: how many blocks a file takes, which blocks they are, and what holds of them.
#![tactic(auto)]

mod capacity;
mod file_slices;
mod laws;
mod laying;
mod pointer;
mod sending;
mod skip_list;

pub use capacity::blocks_for;
pub use file_slices::{FileSlices, read_file};
pub use laws::{
    blocks_of_chains_differ, chains_stay_on_their_blocks, contents_have_their_length,
    files_have_one_chain, laid_blocks_are_chains, laid_blocks_are_complete, least_blocks_are_least,
};
pub use laying::lay;
pub use sending::send_blocks;
pub use skip_list::chain;
