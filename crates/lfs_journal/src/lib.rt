//! The journal of an image: which changes were made and which were taken back, as a value and as bytes. Besides, changes that are made
//! one after another, as one change.
#![tactic(auto)]

mod copying;
mod joint;
mod joint_laws;
mod journal;
mod journal_fault;
mod laws;
mod laying;
mod reading;
mod writing;

pub use joint::Joint;
pub use joint_laws::{
    composed_patches_apply, composed_patches_name_no_others, composed_patches_revert,
    joints_are_short, joints_go_on,
};
pub use journal::{Journal, MAX_JOURNAL_LENGTH};
pub use journal_fault::JournalFault;
pub use laws::{books_are_read_once, journals_are_short};
pub use reading::MOST_CHANGES;
pub use writing::write_journal;
