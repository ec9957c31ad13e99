//! How a request's end is told: its status, the fault with its number, and lines of what more is known of it.
#![tactic(auto)]

mod context;
mod fault_line;
mod finding;
mod geometry;
mod hint;
mod last_name;
mod later;
mod line;
mod need;
mod no_path;
mod operation_paths;
mod path_note;
mod refused_line;
mod refused_row;
mod reporting;
mod salvaged;
mod seen;
mod source;
mod stated;
mod stop;
mod stopping;
mod superblock;
mod told_digits;
mod told_line;
mod versions;
mod within;

pub use context::Context;
pub use later::{Later, report_later};
pub use need::with_need;
pub use refused_line::{stop_at, stop_of_line, with_line, with_number};
pub use refused_row::with_row;
pub use reporting::report_end;
pub use salvaged::stop_of_salvaging;
pub use seen::Seen;
pub use source::{stop_of_source, stop_of_source_bytes};
pub use stated::{Sight, Statement};
pub use stop::Stop;
pub use stopping::{stop_of_extracting, stop_of_image, stop_of_run};
pub use told_digits::report_digits;
pub use within::report_within;
