//! Moves of a session.

use lfs_command::{Asked, Command};

/// A move of a session: a step on its history, whose command has its contents or its value in hand, or says where they come from (`B`).
/// Commands that are carried out together have theirs in hand.
#[derive(Clone, Copy, Drop)]
pub enum Move<'a, B = &'a [u8]> {
    /// Carries a command out.
    Do {
        /// The command.
        command: Command<&'a [u8], B>,
        /// How many images of the past are kept once the command is done, 1 to 1,000; all of them for `None`.
        keep: Option<u32>,
    },
    /// Carries commands out, one after another, as one change: all of them or none.
    Together {
        /// The commands.
        commands: &'a [Asked<'a>],
        /// How many images of the past are kept once all are done, 1 to 1,000; all of them for `None`.
        keep: Option<u32>,
    },
    /// Takes the latest changes back, all of them or none.
    Undo {
        /// How many changes.
        steps: u32,
    },
    /// Makes again the latest changes that were taken back, all of them or none.
    Redo {
        /// How many changes.
        steps: u32,
    },
    /// Keeps the image alone.
    Forget,
}
