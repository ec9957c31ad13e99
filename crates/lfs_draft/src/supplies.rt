//! What a command takes from outside an outline.

use std::marker::Model;

/// The blocks that a command takes for what it makes: those of a file's contents in file order, and the pair of a new directory.
#[derive(Drop)]
pub struct Supplies {
    /// The blocks of a file's contents.
    pub(crate) blocks: Vec<u32>,
    /// The pair of a new directory.
    pub(crate) pair: (u32, u32),
}

impl Model for Supplies {
    ghost use Rattle.lfs_command.specs.Supplies.{Supplies};

    ghost Value = { Supplies };

    ghost view = { λ s. record { blocks = s.blocks.items; pair = s.pair } };

    ghost invariant = { λ s. Unit };
}
