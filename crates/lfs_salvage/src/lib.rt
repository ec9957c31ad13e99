//! What can be saved of an image that needn't mount, made in a new folder of a host.
#![tactic(auto)]

mod block_use;
mod call_folder;
mod entry_name;
mod file_body;
mod file_losses;
mod folders;
mod front;
mod laws;
mod losses;
mod lost;
mod naming;
mod other_names;
mod pair_losses;
mod parent;
mod reading;
mod salvage;
mod saved;
mod saved_lines;
mod saving;
mod saving_entries;
mod saving_image;
mod saving_lost;
mod thing;
mod unsaved;
mod wording;
mod words;

pub use block_use::BlockUse;
pub use laws::{
    lost_files_have_a_cause, lost_words_are_new, parts_are_in_use, saved_chains_are_apart,
    saved_files_are_shown,
};
pub use losses::is_lost;
pub use lost::lost_word;
pub use other_names::has_other_names;
pub use parent::Parent;
pub use salvage::Salvage;
pub use saved::Saved;
pub use saved_lines::salvage_lines;
pub use saving_image::save_image;
pub use unsaved::{Unsaved, Why};
