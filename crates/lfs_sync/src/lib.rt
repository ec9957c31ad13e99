//! Whole trees in one change: the commands that make of what stands at a path what a folder holds.
#![tactic(auto)]

mod commanding;
mod comparing;
mod folder;
mod held_row;
mod holding;
mod laws;
mod making;
mod merging;
mod planned;
mod planning;
mod removing;
mod sync_row;
mod syncing;
mod texts;
mod wanted_row;
mod wanting;

pub use commanding::commands_of;
pub use comparing::same_contents;
pub use folder::sync_rows;
pub use laws::{
    directories_are_made_with_parents, files_are_put_with_parents, folders_are_wanted,
    mounted_rows_are_held, parts_are_removed, parts_become_folders, texts_spell_their_commands,
};
pub use making::{make_plan, put_plan};
pub use planned::{Planned, PlannedKind};
pub use removing::remove_plan;
pub use sync_row::SyncRow;
pub use syncing::sync_plan;
