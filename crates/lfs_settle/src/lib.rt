//! Images as devices read them: what a device left unfinished is read as its next change leaves it. The moved entry is gone from its
//! old place, and so are the directories that no path leads to. And the image with which bytes begin.
#![tactic(auto)]

mod by_device;
mod dropping;
mod ended;
mod groups;
mod laws;
mod lowering;
mod moved;
mod pairs;
mod planning;
mod reached;
mod settled_parts;
mod settling;
mod state;
mod steps;
mod thread;
mod threading;
mod within;

pub use by_device::read_by_device;
pub use ended::{DroppedDirectory, Ended, EndedMove, EndedStep};
pub use groups::is_hard;
pub use laws::{
    moved_entries_go, nothing_ended_stays, reached_directories_are_closed,
    relaid_images_hold_what_is_read, settled_images_hold_what_is_read, settled_parts_are_a_thread,
    settled_stays,
};
pub use moved::have_no_state;
pub use planning::{is_kept, push_unless};
pub use settling::{settle, unfinished};
pub use threading::{clear_all, end_with};
pub use within::{read_as, read_within};
