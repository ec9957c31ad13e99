//! How many blocks a command takes for what it makes.

ghost use Rattle.std.specs.Prelude.{◌≡◌, ◌<◌, ◌^◌};
ghost use Rattle.lfs_block.specs.Geometry.{IsBlockSize};
ghost use Rattle.lfs_fs.specs.Volume.{Volume};
ghost use Rattle.lfs_command.specs.AskedFor.{contents_len, named_command};
ghost use Rattle.lfs_command.specs.Need.{data_blocks, directory_blocks};

use crate::command::{Command, Named};
use crate::contents_blocks::data_count;

/// The blocks of the contents, where they don't stand in the entry, in blocks of this size.
pub fn data_blocks(size: u32, command: &Named<'_>) -> u32
    requires size { IsBlockSize size }
    requires len { contents_len command.now < 2 ^ 32 }
    ensures { (v : Volume) → v.size ≡ size → result ≡ data_blocks v (named_command command.now) }
{
    match command {
        Command::Put { bytes, most, .. } => data_count(size, bytes.len(), *most),
        _ => 0,
    }
}

/// The blocks of a new directory: two.
pub fn directory_blocks(command: &Named<'_>) -> u32
    ensures { result ≡ directory_blocks (named_command command.now) }
{
    match command {
        Command::Mkdir { .. } => 2,
        _ => 0,
    }
}
