//! The journal that is kept behind a run.

use lfs_journal::Journal;
use lfs_sink::{Sink, Text, send};
use std::alloc::Global;
use std::marker::Model;

/// Where a journal's bytes stand.
#[derive(Drop)]
enum JournalText {
    /// In memory.
    Given(Vec<u8>),
    /// In its changes, as which they are spelled.
    Spelled(Journal),
}

/// The journal that is kept behind a run. Its meaning is its bytes. Those of changes are sent as they stand there, and never gathered in
/// memory.
#[derive(Drop)]
pub struct KeptJournal {
    text: JournalText,
}

impl Model for KeptJournal {
    ghost use Rattle.lfs_request.specs.KeptJournal.{KeptBytes, kept_items};

    ghost Value = { KeptBytes };

    ghost view = { λ kept. record { items = kept_items kept.text } };
}

impl KeptJournal {
    ghost use Rattle.std.specs.Prelude.{◌≡◌, IfSome};
    ghost use Rattle.lfs_journal.specs.Book.{journal_bytes};

    /// These bytes.
    pub(crate) fn given(bytes: Vec<u8>) -> KeptJournal
        ensures { result.items ≡ bytes.items }
    {
        KeptJournal {
            text: JournalText::Given(bytes),
        }
    }

    /// The bytes of a journal.
    pub(crate) fn spelled(journal: Journal) -> KeptJournal
        ensures { result.items ≡ journal_bytes journal }
    {
        KeptJournal {
            text: JournalText::Spelled(journal),
        }
    }

    /// The bytes, gathered. `None` where memory is refused.
    pub fn into_bytes(self, alloc: Global) -> Option<Vec<u8>>
        ensures { IfSome result (λ bytes. bytes.items ≡ self.items) }
    {
        match self.text {
            JournalText::Given(bytes) => Some(bytes),
            JournalText::Spelled(journal) => journal.write(alloc),
        }
    }
}

impl Text for KeptJournal {
    ghost bytes = { λ kept. kept.items };

    fn send_to<S: Sink>(&self, out: &mut S) -> bool {
        match &self.text {
            JournalText::Given(bytes) => send(out, bytes),
            JournalText::Spelled(journal) => journal.send_to(out),
        }
    }
}
