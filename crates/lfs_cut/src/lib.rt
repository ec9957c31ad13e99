//! Room for the parts that a command sets: what entries weigh, how many new blocks are needed, and parts cut into pairs.
#![tactic(auto)]

mod block_room;
mod choosing;
mod cleaning;
mod cutting;
mod front;
mod new_blocks;
mod new_pairs;
mod overflow;
mod room_check;
mod runs;
mod set_parts;
mod splitting;
mod weighing;

pub use choosing::choose;
pub use cleaning::clean;
pub use cutting::cut;
pub use new_pairs::NewPairs;
pub use room_check::needed;
pub use weighing::weight;
