//! What is known of the thread of an image that differs in some blocks.

ghost use Rattle.std.specs.Prelude.{◌<◌, length, IfSome};

use crate::known_part::KnownPart;
use crate::known_thread::known_thread;
use crate::marking::mark_each;
use crate::outline_directory::OutlineDirectory;
use crate::touching::part_is_left;
use std::alloc::{AllocError, Global};

/// How many parts are looked at for the one that stands at a pair: the next one, and some behind it, since a change drops few.
const NEAR: usize = 4;

/// The parts of a known outline that are still to come in the thread, and which blocks are others than they were.
#[derive(Drop)]
pub(crate) struct KnownParts {
    /// The parts, the first of the thread last.
    pub(crate) parts: Vec<KnownPart>,
    /// A flag for each block: whether it is another one.
    pub(crate) changed: Vec<bool>,
}

/// Where the part of a pair stands in these, if it is one of the last few.
fn near(parts: &[KnownPart], pair: (u32, u32)) -> Option<usize>
    ensures { IfSome result (λ at. at < length parts.now) }
{
    for ahead in 0..NEAR {
        let at = parts.len().checked_sub(ahead + 1)?;
        let known = &parts[at];
        if known.stands_at(pair) {
            return Some(at);
        }
    }
    None
}

impl KnownParts {
    ghost use Rattle.std.specs.Prelude.{◌≡◌, ◌++◌, false, List, Contains, IfOk, IfSome, replicate, reverse};
    ghost use Rattle.lfs_fs.specs.MarksMore.{MarksMore};
    ghost use Rattle.lfs_fs.specs.Reread.{PartIsLeft};
    ghost use Rattle.lfs_fs.specs.Thread.{Link, links};
    ghost use Rattle.lfs_fs.specs.Uses.{times};

    /// Those of these directories, in an image of `count` blocks, of which these are changed. Takes memory.
    pub(crate) fn of(
        alloc: Global,
        count: u32,
        directories: Vec<OutlineDirectory>,
        changed: &[u32],
    ) -> Result<KnownParts, AllocError>
        ensures parts { IfOk result (λ known. known.parts.items ≡ reverse (links directories.items)) }
        ensures changed { IfOk result (λ known. MarksMore (replicate count false) known.changed.items (λ b. times b changed.now)) }
    {
        let mut flags = vec![in alloc; false; count as usize]?;
        mark_each(&mut flags, changed);
        let parts = known_thread(alloc, directories)?;
        Ok(KnownParts {
            parts,
            changed: flags,
        })
    }

    /// Takes the part of a pair off, and those that come before it in the thread. `None` where it isn't one of the next few,
    /// which stay then, or where a changed block is its own.
    pub(crate) fn take(&mut self, pair: (u32, u32)) -> Option<KnownPart>
        ensures pair { IfSome result (λ known. known.part.pair ≡ pair) }
        ensures left { IfSome result (λ known. PartIsLeft self.old.changed.items known.part) }
        ensures there { IfSome result (λ known. Contains self.old.parts.items known) }
        ensures rest { (gone : List Link) × (self.old.parts.items ≡ self.new.parts.items ++ gone) }
        ensures changed { self.new.changed.items ≡ self.old.changed.items }
    {
        let at = near(&self.parts, pair)?;
        self.parts.truncate(at + 1);
        let known = self.parts.pop()?;
        if known.stands_at(pair) && part_is_left(&self.changed, &known.part) {
            Some(known)
        } else {
            None
        }
    }
}
