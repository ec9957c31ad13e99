//! Files of a host, opened: where in one images stand and whether they mount, images and folders that are read, and folders that are made
//! of images.
#![tactic(auto)]

mod extracting;
mod fault_name;
mod host_folder;
mod later;
mod least;
mod line_contents;
mod line_moves;
mod lines;
mod looking;
mod new_image;
mod opened;
mod salvaging;
mod sending;
mod sizing;
mod viewing;

pub use extracting::extracted;
pub use host_folder::{folder_of, rows_to_pack};
pub use later::pass;
pub use least::{counted, counted_for};
pub use line_contents::{LineContents, read_lines};
pub use line_moves::{commands_of, moves_of};
pub use looking::list_images;
pub use new_image::with_new_image;
pub use opened::{Opened, open_source};
pub use salvaging::salvaged;
pub use sending::send_found;
pub use sizing::stated_size;
pub use viewing::{asked_by, read_by};
