//! Commands on outlines: judged and carried out, before anything is weighed or written.
#![tactic(auto)]

mod bare;
mod copying;
mod directory_edit;
mod editing;
mod entry_change;
mod entry_edit;
mod freeing;
mod front;
mod judging;
mod last_names;
mod leading;
mod parent;
mod reaching;
mod standing;
mod supplies;
mod supplying;
mod thread_changes;
mod thread_edit;
mod walking;

pub use editing::edit;
pub use freeing::freed_blocks;
pub use front::count_in_front;
pub use judging::judge;
pub use leading::leading_pair;
pub use reaching::reach;
pub use standing::entry_there;
pub use supplies::Supplies;
pub use supplying::least_supplies;
pub use thread_changes::new_entry;
