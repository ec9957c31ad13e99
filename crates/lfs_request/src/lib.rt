//! What is asked for on an image, an operation on an image's file, and what comes of it: an outcome, or a fault.
#![tactic(auto)]

mod extent;
mod fault;
mod kept_journal;
mod manner;
mod operation;
mod other_fault;
mod outcome;
mod place;
mod query;
mod request;
mod said_limits;
mod source_image;
mod standing;
mod tree_change;
mod view;

pub use extent::Extent;
pub use fault::Fault;
pub use kept_journal::KeptJournal;
pub use manner::Manner;
pub use operation::Operation;
pub use other_fault::OtherFault;
pub use outcome::Outcome;
pub use place::Place;
pub use query::Query;
pub use request::Request;
pub use said_limits::SaidLimits;
pub use source_image::SourceImage;
pub use standing::{names_of_directory, names_there};
pub use tree_change::TreeChange;
pub use view::View;
