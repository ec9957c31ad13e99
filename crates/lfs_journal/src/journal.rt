//! The journal of an image.

use crate::journal_fault::JournalFault;
use crate::reading::{head_at, patches_at};
use crate::writing::{send_journal, write_journal};
use lfs_block::Patch;
use lfs_sink::{Sink, Text};
use std::alloc::Global;
use std::marker::Model;

/// The greatest length of a journal, in bytes: 1,000 changes of all blocks of a largest image.
pub const MAX_JOURNAL_LENGTH: u64 = 134_479_884_024;

/// The journal of an image: its changes, up to 1,000, those that are done and those that were taken back. Its meaning is
/// a `Book`.
#[derive(Drop)]
pub struct Journal {
    size: u32,
    count: u32,
    patches: Vec<Patch>,
    done: usize,
}

impl Model for Journal {
    ghost use Rattle.lfs_journal.specs.Book.{Book, IsBookOf, book_of};

    ghost Value = { Book };

    ghost view = { λ j. book_of j.size j.count j.patches.items j.done };

    ghost invariant = { λ j. IsBookOf j.size j.count j.patches.items j.done };
}

impl Journal {
    ghost use Rattle.std.specs.Prelude.{◌≡◌, ◌++◌, length, IfOk, IfErr, IfSome};
    ghost use Rattle.lfs_journal.specs.Book.{IsBook, IsBookOf, SpellsJournal, book_of, journal_bytes};
    ghost use Rattle.lfs_journal.specs.Faults.{Gives, IsNoJournal};
    ghost use Rattle.lfs_journal.specs.Reading.{read_book};

    /// The journal of an image of `count` blocks of `size` bytes: of its changes, the first `done` are done, and the
    /// others undone, in the order in which they are made again.
    pub fn new(size: u32, count: u32, patches: Vec<Patch>, done: usize) -> Journal
        requires { IsBookOf size count patches.items done }
        ensures { result ≡ book_of size count patches.items done }
    {
        Journal {
            size,
            count,
            patches,
            done,
        }
    }

    /// The journal that stands in the bytes, all of them.
    #[tactic(auto, unfolding(crate::specs::Reading::read_book))]
    fn read_complete(alloc: Global, bytes: &[u8]) -> Result<Journal, JournalFault>
        ensures { Gives (λ journal. journal) result (read_book bytes.now) }
    {
        let (head, rest) = head_at(bytes)?;
        let (patches, rest) = patches_at(alloc, head, head.done + head.undone, rest)?;
        if !rest.is_empty() {
            return Err(JournalFault::JournalFormat);
        }
        Ok(Journal {
            size: head.size,
            count: head.count,
            patches,
            done: head.done as usize,
        })
    }

    /// The journal that the bytes spell, all of them, in version 1 or 2. `JournalFormat` where they spell none, and `Memory`
    /// says only that a growth was refused.
    pub fn read(alloc: Global, bytes: &[u8]) -> Result<Journal, JournalFault>
        ensures spelled { IfOk result (λ journal. SpellsJournal bytes.now journal) }
        ensures refused { IfErr result (λ fault. IsNoJournal fault bytes.now) }
    {
        Journal::read_complete(alloc, bytes)
    }

    /// The journal's bytes, in version 2. `None` where memory is refused.
    pub fn write(&self, alloc: Global) -> Option<Vec<u8>>
        ensures { IfSome result (λ bytes. bytes.items ≡ journal_bytes self.now) }
    {
        write_journal(alloc, self.size, self.count, &self.patches, self.done)
    }

    /// The block size of the image, in bytes.
    pub fn size(&self) -> u32
        ensures size { result ≡ self.now.size }
        ensures book { IsBook self.now }
    {
        self.size
    }

    /// The number of blocks of the image between the changes that are done and those that are undone.
    pub fn count(&self) -> u32
        ensures { result ≡ self.now.count }
    {
        self.count
    }

    /// The changes: those that are done, in the order in which they were made, then those that are undone, in the order
    /// in which they are made again.
    pub fn patches(&self) -> &[Patch]
        ensures { result.now ≡ self.now.done ++ self.now.undone }
    {
        &self.patches
    }

    /// The number of changes that are done.
    pub fn done(&self) -> usize
        ensures { result ≡ length self.now.done }
    {
        self.done
    }

    /// The changes, those that are done before the others, and how many are done.
    pub fn into_parts(self) -> (Vec<Patch>, usize)
        ensures parts { book_of self.size self.count result.0.items result.1 ≡ self }
        ensures book { IsBookOf self.size self.count result.0.items result.1 }
    {
        let Journal {
            size: _,
            count: _,
            patches,
            done,
        } = self;
        (patches, done)
    }
}

impl Text for Journal {
    ghost use Rattle.lfs_journal.specs.Book.{journal_bytes};

    ghost bytes = { λ journal. journal_bytes journal };

    fn send_to<S: Sink>(&self, out: &mut S) -> bool {
        send_journal(out, self.size, self.count, &self.patches, self.done)
    }
}
