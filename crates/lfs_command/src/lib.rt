//! What commands mean: what each makes of a volume, what it needs, and what it is refused for; and the commands that are asked
//! for, their texts taken apart into names.
#![tactic(auto)]

mod command;
mod contents_blocks;
mod forcing;
mod growth;
mod made_blocks;
mod naming;
mod paths;
mod refusal;

pub use command::{Asked, Command, Named};
pub use contents_blocks::{inline_limit, most_inline};
pub use forcing::forced_by;
pub use growth::count_after;
pub use made_blocks::{data_blocks, directory_blocks};
pub use naming::by_names;
pub use paths::{last_of, names_of};
pub use refusal::Refusal;
