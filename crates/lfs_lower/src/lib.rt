//! What devices write: commits of later disk versions, which a reader of version 2.0 passes over; what the first bytes of an image
//! state of it, whether or not it mounts; pairs of later disk versions, read, and lowered to version 2.0; and images whose superblock
//! was expanded, with one superblock.
#![tactic(auto)]

mod alone;
mod beginning;
mod block;
mod commit;
mod header;
mod joining;
mod kept;
mod later_part;
mod laws;
mod lowering;
mod lowering_all;
mod own;
mod plain;
mod putting;
mod seen_block;
mod seen_commit;
mod seen_pair;
mod superblocks;
mod told;
mod version;
mod words;

pub use alone::Rewrite;
pub use beginning::{begins_with, log_superblock, size_of};
pub use joining::join;
pub use later_part::later_part_at;
pub use laws::{lowered_blocks_are_read, lowered_pairs_are_read, one_superblock_stays};
pub use lowering::lower_pair;
pub use lowering_all::lower_all;
pub use own::own_bytes;
pub use putting::{all_can, put_parts};
pub use seen_commit::closes;
pub use superblocks::part_at;
pub use told::Superblock;
pub use version::{StatedVersion, later_version, unread_version};
pub use words::superblock_words;
