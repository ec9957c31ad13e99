//! The file system of an image in memory, less the contents of chains.

use crate::limits::Limits;
use crate::marking::mark_directories;
use crate::outline_directory::OutlineDirectory;
use crate::used_blocks::UsedBlocks;
use lfs_meta::Attribute;
use std::alloc::{AllocError, Global};
use std::marker::Model;

/// The file system of an image in memory: a volume less the contents of its chains, for which as many zeros stand. Its
/// meaning is that volume. The root's attributes rise by kind, and fit into tags.
#[derive(Drop)]
pub struct Outline {
    /// The size of a block in bytes.
    pub size: u32,
    /// The number of blocks.
    pub count: u32,
    /// The greatest lengths of a name, a file and an attribute.
    pub limits: Limits,
    /// The root's attributes, strictly rising by kind.
    pub attributes: Vec<Attribute>,
    /// The directories in the order of the thread.
    pub directories: Vec<OutlineDirectory>,
}

impl Model for Outline {
    ghost use Rattle.lfs_meta.specs.Fits.{RiseFrom};
    ghost use Rattle.lfs_fs.specs.Volume.{Volume};

    ghost Value = { Volume };

    ghost view = { λ o. record {
      size = o.size;
      count = o.count;
      limits = o.limits;
      attributes = o.attributes.items;
      directories = o.directories.items;
    } };

    ghost invariant = { λ o. RiseFrom 0 o.attributes.items };
}

impl Outline {
    ghost use Rattle.std.specs.Prelude.{◌≡◌, IfOk, length};
    ghost use Rattle.lfs_fs.specs.Free.{free_blocks};
    ghost use Rattle.lfs_fs.specs.Sound.{IsSound};
    ghost use Rattle.lfs_fs.specs.Table.{IsTableOf};
    ghost use Rattle.lfs_fs.specs.Unused.{unused};
    ghost use Rattle.lfs_fs.specs.Used.{Marks};
    ghost use Rattle.lfs_fs.specs.Uses.{uses};

    /// The blocks that it uses.
    pub fn used_blocks(&self, alloc: Global) -> Result<UsedBlocks, AllocError>
        requires { IsSound self.now }
        ensures marks { IfOk result (λ used. Marks used (λ b. uses b self.now)) }
        ensures free { IfOk result (λ used. unused used ≡ free_blocks self.now) }
        ensures table { IfOk result (λ used. IsTableOf self.now used) }
    {
        let mut flags = vec![in alloc; false; self.count as usize]?;
        mark_directories(&mut flags, &self.directories);
        prove!(flags.len() == self.count as usize);
        Ok(UsedBlocks::new(flags))
    }

    /// The number of its directories.
    pub(crate) fn directory_count(&self) -> usize
        ensures { result ≡ length self.now.directories }
    {
        self.directories.len()
    }
}
