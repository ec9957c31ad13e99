//! A mounted image.

use crate::found::Found;
use crate::limits::Limits;
use crate::outline::Outline;
use crate::path::Path;
use crate::place::Place;
use crate::rows::Rows;
use crate::used_blocks::UsedBlocks;
use std::alloc::Global;
use std::marker::Model;

/// What is known of an image that mounts: its outline, the places of what stands at each path, and its free blocks.
#[derive(Drop)]
pub struct Mounted {
    outline: Outline,
    order: Vec<Place>,
    thread: Vec<(u32, u32)>,
    used: UsedBlocks,
}

impl Model for Mounted {
    ghost use Rattle.std.specs.Prelude.{◌≡◌, ◌<◌, ◌^◌, length, map};
    ghost use Rattle.lfs_fs.specs.Directory.{thread as thread_parts};
    ghost use Rattle.lfs_fs.specs.Unused.{unused};
    ghost use Rattle.lfs_fs.specs.Placed.{ArePlaces, rows_of};
    ghost use Rattle.lfs_fs.specs.Ordered.{AreCounted};
    ghost use Rattle.lfs_fs.specs.Mounted.{MountedValue};

    ghost Value = { MountedValue };

    ghost view = { λ m. record {
      outline = m.outline;
      rows = rows_of m.outline m.order.items;
      free = unused m.used;
    } };

    ghost invariant = { λ m. ArePlaces m.outline m.order.items
        × AreCounted m.outline (rows_of m.outline m.order.items)
        × (m.thread.items ≡ map (λ p. p.pair) (thread_parts m.outline.directories)) };
}

impl Mounted {
    ghost use Rattle.std.specs.Prelude.{◌≡◌, ◌<◌, ◌≤◌, ◌^◌, length, take, IfSome};
    ghost use Rattle.std.specs.Prelude.{count_by, map, not};
    ghost use Rattle.lfs_fs.specs.Directory.{thread as thread_parts};
    ghost use Rattle.std.specs.Option.{option_map};
    ghost use Rattle.lfs_fs.specs.Tree.{entry_at};
    ghost use Rattle.lfs_fs.specs.Seen.{seen};
    ghost use Rattle.lfs_fs.specs.Entry.{leads};
    ghost use Rattle.lfs_fs.specs.Listed.{rows_listed};
    ghost use Rattle.lfs_fs.specs.Ordered.{AreCounted, file_count_of};
    ghost use Rattle.lfs_fs.specs.Placed.{ArePlaces, rows_of};
    ghost use Rattle.lfs_fs.specs.Unused.{unused};

    /// What is known of an image, with one flag a block that says whether it is used.
    pub(crate) fn new(
        outline: Outline,
        order: Vec<Place>,
        thread: Vec<(u32, u32)>,
        used: UsedBlocks,
    ) -> Mounted
        requires places { ArePlaces outline order.items }
        requires thread { thread.items ≡ map (λ p. p.pair) (thread_parts outline.directories) }
        requires counted { AreCounted outline (rows_of outline order.items) }
        ensures { result ≡ record { outline = outline; rows = rows_of outline order.items; free = unused used } }
    {
        Mounted {
            outline,
            order,
            thread,
            used,
        }
    }

    /// The image's volume less the contents of its chains.
    pub fn outline(&self) -> &Outline
        ensures { result.now ≡ self.now.outline }
    {
        &self.outline
    }

    /// The image's volume less the contents of its chains, without what else is known.
    pub fn into_outline(self) -> Outline
        ensures { result ≡ self.outline }
    {
        self.outline
    }

    /// What stands at each path, in the order of paths: the root's row first.
    pub fn rows(&self) -> Rows<'_>
        ensures { rows_listed result ≡ self.now.rows }
    {
        Rows::new(&self.outline, &self.order)
    }

    /// The pairs of the thread in order.
    pub fn thread(&self) -> &[(u32, u32)]
        ensures { result.now ≡ map (λ p. p.pair) (thread_parts self.now.outline.directories) }
    {
        &self.thread
    }

    /// What stands at a path.
    pub fn find(&self, path: &Path) -> Option<Found<'_>>
        ensures { option_map (seen self.now.outline) result ≡ entry_at self.now.outline path.now }
    {
        self.outline.find(path)
    }

    /// The number of free blocks.
    pub fn free_count(&self) -> u32
        ensures { result ≡ length self.now.free }
    {
        self.used.free_count()
    }

    /// The `n` least free blocks, rising. `None` says only that a growth was refused.
    pub fn lowest_free(&self, alloc: Global, n: u32) -> Option<Vec<u32>>
        requires { n ≤ length self.now.free }
        ensures { IfSome result (λ blocks. blocks.items ≡ take n self.now.free) }
    {
        self.used.lowest_free(alloc, n)
    }

    /// The number of directories, the root among them: of rows that show one.
    pub fn directories(&self) -> usize
        ensures outline { result ≡ length self.now.outline.directories }
        ensures rows { result ≡ count_by (λ row. leads row.entry) self.now.rows }
    {
        self.outline.directory_count()
    }

    /// The number of files: of entries that lead to no directory, and of rows that show one.
    pub fn files(&self) -> usize
        ensures outline { result ≡ file_count_of self.now.outline }
        ensures rows { result ≡ count_by (λ row. not (leads row.entry)) self.now.rows }
    {
        self.order.len() - self.outline.directory_count()
    }

    /// The greatest lengths of a name, a file and an attribute.
    pub fn limits(&self) -> Limits
        ensures { result ≡ self.now.outline.limits }
    {
        self.outline.limits
    }
}
