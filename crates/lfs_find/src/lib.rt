//! Images that are looked for in a file: at which bytes they begin, and whether they mount as a device reads them.
#![tactic(auto)]

mod finding;
mod found;
mod judging;
mod place;
mod places;
mod search;
mod sizes;
mod unmounted;

pub use finding::find_images;
pub use found::Found;
pub use place::Place;
pub use unmounted::Unmounted;
