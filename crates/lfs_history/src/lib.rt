//! Histories: an image between those before it and those that were taken back, the moves that lead from one history to
//! another, and the journals that denote them.
#![tactic(auto)]

mod filling;
mod laws;
mod moves;
mod open_fault;
mod source;
mod step_fault;
mod terms;

pub use filling::filled;
pub use laws::{
    commands_are_equations, commands_are_made_together, commands_push_equations,
    commands_push_equations_together, histories_are_books, journals_grow_by_the_need,
    lists_of_one_are_commands, redo_is_exact, runs_keep_histories, saved_histories_open,
    steps_keep_size, undo_and_redo_keep_images, undo_is_exact,
};
pub use moves::Move;
pub use open_fault::OpenFault;
pub use source::Source;
pub use step_fault::StepFault;
pub use terms::Terms;
