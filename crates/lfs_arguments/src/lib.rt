//! What the words of the program's command line ask for.
#![tactic(auto)]

mod auto_file;
mod auto_sizes;
mod counting;
mod matching;
mod operations;
mod options;
mod spelling;
mod usage_error;
mod viewing;

pub use auto_file::AutoFile;
pub use auto_sizes::AutoSizes;
pub use matching::{auto_image, auto_other, faults_asked, flash_asked, form_asked, request_said};
pub use usage_error::{UsageError, Ways};
