//! The change of one block.

ghost use Rattle.std.specs.Prelude.{◌≡◌};
ghost use Rattle.std.specs.Option.{option_map};
ghost use Rattle.lfs_block.specs.Change.{IsRising, change_of};

use crate::side::Side;
use std::marker::Model;

/// What one block holds before a command and after it.
#[derive(Drop)]
pub struct Record {
    /// The block's number.
    pub number: u32,
    /// The block's bytes before.
    pub old: Vec<u8>,
    /// The block's bytes after.
    pub new: Vec<u8>,
}

impl Model for Record {
    ghost use Rattle.lfs_block.specs.Change.{Change};

    ghost Value = { Change };

    ghost view = { λ r. record { number = r.number; old = r.old.items; new = r.new.items } };
}

impl Record {
    ghost use Rattle.std.specs.Prelude.{◌≡◌};
    ghost use Rattle.lfs_block.specs.Overlay.{side_of};

    /// The block's bytes on one side of the change.
    pub(crate) fn side(&self, side: Side) -> &[u8]
        ensures { result.now ≡ side_of side self.now }
    {
        match side {
            Side::Old => &self.old,
            Side::New => &self.new,
        }
    }
}

/// The change of block `n` among changes whose numbers rise, where there is one.
pub(crate) fn record_of(records: &[Record], n: u32) -> Option<&Record>
    requires { IsRising records.now }
    ensures { option_map (λ r. r.now) result ≡ change_of n records.now }
{
    let at = records.partition_point(|record| record.number < n);
    let record = records.get(at)?;
    if record.number == n {
        Some(record)
    } else {
        None
    }
}
