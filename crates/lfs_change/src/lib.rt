//! Steps on bytes that change an image: steps on the history that an image and its journal denote.
#![tactic(auto)]

mod adopting;
mod beside;
mod changing;
mod forgetting;
mod in_place;
mod kept_past;
mod laws;
mod opening;
mod outcomes;

pub use adopting::{Adoption, adopted};
pub use changing::changed;
pub use forgetting::forgotten;
pub use laws::{
    bytes_are_changed_together, changed_bytes_are_denoted, changed_bytes_are_equations,
    journals_of_bytes_grow_by_the_need, undone_bytes_stand_again,
};
