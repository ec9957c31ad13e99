//! Folders of a host: one that is read, as the rows of an image, which say what stands below it in the order of paths; and one that is
//! made of the rows of a mounted image.
#![tactic(auto)]

mod extract_fault;
mod extracting;
mod file_sink;
mod folder_fault;
mod folder_row;
mod host_names;
mod host_path;
mod making;
mod name_texts;
mod path_below;
mod reading;
mod shared_prefix;
mod walking;

pub use extract_fault::ExtractFault;
pub use extracting::extract_rows;
pub use folder_fault::FolderFault;
pub use folder_row::FolderRow;
pub use making::write_file;
pub use reading::folder_rows;
