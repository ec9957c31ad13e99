//! One step on the bytes of an image and its journal, and the texts that its questions are answered with.
#![tactic(auto)]

mod adopting;
mod appending;
mod changed_text;
mod comparing;
mod contents;
mod course;
mod laws;
mod lines;
mod log;
mod mounting;
mod querying;
mod recounting;
mod running;
mod sending;
mod step;
mod summary;
mod tree_changing;

pub use contents::send_file;
pub use laws::{
    packed_images_list_their_rows, runs_go_on, steps_leave_histories, trees_are_changed_as_said,
};
pub use log::log_of;
pub use running::run;
pub use step::Step;
