//! Images that devices wrote, taken over: as the device's next change leaves them, of version 2.0, with one superblock. Later parts
//! of directories that hold no entry leave, since a real littlefs never ends listing a directory with such a part.
#![tactic(auto)]

mod adopting;
mod draft;
mod laws;
mod planning;
mod thread;
mod tidied_parts;
mod tidying;

pub use adopting::{TakenOver, adopted};
pub use draft::{Draft, NewBlock, put_drafted};
pub use laws::{
    adopted_images_keep_the_tree, adopted_once, tidied_images_hold_what_is_tidied,
    tidied_keep_the_tree, tidied_parts_have_entries, tidied_stay,
};
pub use tidying::tidy;
