//! What texts say: hexadecimal digits, sizes of images and of their blocks, and the lines of scripts; and what is said of faults.
#![tactic(auto)]

mod digits;
mod escapes;
mod explanation;
mod flaw;
mod flaws;
mod line_fault;
mod line_words;
mod lines;
mod number;
mod one_change;
mod reason;
mod script;
mod script_fault;
mod script_line;
mod script_steps;
mod sizes;
mod steps;
mod verb;
mod words;
mod wrong_word;

pub use digits::{byte_of, bytes_of};
pub use explanation::{Explanation, explained, explanations};
pub use flaw::Flaw;
pub use line_fault::LineFault;
pub use one_change::first_other;
pub use reason::Reason;
pub use script::{Script, line_at, script_of};
pub use script_fault::ScriptFault;
pub use script_line::ScriptLine;
pub use script_steps::script_lines;
pub use sizes::{NO_BYTES, SizeFault, block_said, blocks_said, bytes_said};
pub use verb::Verb;
