//! What stands at a path of an outline.

use crate::outline_entry::OutlineEntry;
use crate::thread_reading::ROOT;

/// What stands at a path: the root, which has no entry, or an entry of a directory.
#[derive(Clone, Copy, Drop)]
pub enum Found<'a> {
    /// The root.
    Root,
    /// An entry of a directory.
    Entry(&'a OutlineEntry),
}

impl<'a> Found<'a> {
    ghost use Rattle.std.specs.Prelude.{◌≡◌};
    ghost use Rattle.lfs_fs.specs.Volume.{Volume};
    ghost use Rattle.lfs_fs.specs.Entry.{target};
    ghost use Rattle.lfs_fs.specs.Seen.{seen};

    /// The directory that it leads to, as a set of blocks: the lesser one first.
    pub fn target(&self) -> Option<(u32, u32)>
        ensures { (v : Volume) → result ≡ target (seen v self.now) }
    {
        match self {
            Found::Root => Some(ROOT),
            Found::Entry(entry) => entry.target(),
        }
    }
}
