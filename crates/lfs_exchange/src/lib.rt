//! What a host and a step exchange: what the step is handed of the host's files and standard input, and how what it leaves is
//! stored, printed and told.
#![tactic(auto)]

mod handing;
mod names;
mod output;
mod printing;
mod reporting;
mod step_kind;
mod storing;

pub use handing::{
    Handed, fault_of_reading, input_of, question_of, read_contents, read_input, read_other,
    source_read, spare, taken_up,
};
pub use names::{Names, names_of};
pub use output::Output;
pub use printing::{flush, print};
pub use reporting::{MORE, report, report_of_image};
pub use step_kind::{StepKind, kind_of_query, kind_of_steps};
pub use storing::stored;
