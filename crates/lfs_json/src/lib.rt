//! Lines of JSON, an object a line: of rows, of blocks, of changes, of an image in numbers.
#![tactic(auto)]

mod attributes;
mod blocks;
mod changes;
mod entries;
mod form;
mod laws;
mod line;
mod members;
mod paths;
mod record_laws;
mod rows;
mod steps;
mod summary;

pub use blocks::{
    FREE_FRONT, append_json_free_sum, append_json_run, append_json_sum, append_json_user,
};
pub use changes::{append_json_change, append_json_contents};
pub use form::Form;
pub use laws::{spellings_are_one_line, spellings_are_utf8, spellings_read_back};
pub use line::{begin_line, end_line};
pub use members::{add_bytes, add_digits, add_number, add_text};
pub use record_laws::{blocks_have_texts, rows_have_texts, steps_have_texts, summaries_have_texts};
pub use rows::{append_json_digested_row, append_json_row};
pub use steps::append_json_step;
pub use summary::{Summary, append_json_limits, append_json_summary};
