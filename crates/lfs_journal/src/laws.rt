//! Laws of journals. A function here does nothing: its contract is the law.

ghost use Rattle.lfs_journal.specs.Laws.{BooksAreReadOnce, JournalsAreShort};

/// Law: two journals that the same bytes spell are one.
pub fn books_are_read_once()
    ensures { BooksAreReadOnce }
{}

/// Law: no bytes that spell a journal are more than 1,000 changes of all blocks of a largest image, so that a journal that is read
/// so far is read whole.
pub fn journals_are_short()
    ensures { JournalsAreShort }
{}
