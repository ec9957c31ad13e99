//! Journals by example.

use crate::images::add_fills;
use lfs_journal::{Journal, JournalFault, write_journal};
use std::alloc::{AllocError, Global};

/// The journal of an image of 8 blocks of 512 bytes that nothing was done to.
const FRESH: [u8; 24] = [
    0x6c, 0x66, 0x73, 0x6a, 0x02, 0x00, 0x00, 0x00, 0x00, 0x02, 0x00, 0x00, 0x08, 0x00, 0x00, 0x00,
    0x00, 0x00, 0x00, 0x00, 0x00, 0x00, 0x00, 0x00,
];
/// The letters `lfsj` as a word.
const LETTERS: u32 = 0x6a73_666c;

/// Words, and behind them 256 bytes of each of some values.
type Piece = (&'static [u32], &'static [u8]);

/// Two changes of an image that has 4 blocks of 256 bytes between them: one of block 1 that keeps 4 blocks, and one of the blocks 0
/// and 5 that makes them 6, of which the fifth is erased before.
const CHANGES: [Piece; 3] = [
    (&[LETTERS, 2, 256, 4, 1, 1, 1, 4, 4, 1], &[10, 11]),
    (&[2, 4, 6, 0], &[20, 21]),
    (&[5], &[0xff, 31]),
];

/// The same, but that the fifth isn't erased before.
const NOT_ERASED: [Piece; 3] = [
    (&[LETTERS, 2, 256, 4, 1, 1, 1, 4, 4, 1], &[10, 11]),
    (&[2, 4, 6, 0], &[20, 21]),
    (&[5], &[0xfe, 31]),
];

/// The first of these changes, and then one of block 3, without counts.
const VERSION_ONE: [Piece; 2] = [
    (&[LETTERS, 1, 256, 4, 1, 1, 1, 1], &[10, 11]),
    (&[1, 3], &[30, 31]),
];

/// The same in version 2.
const VERSION_TWO: [Piece; 2] = [
    (&[LETTERS, 2, 256, 4, 1, 1, 1, 4, 4, 1], &[10, 11]),
    (&[1, 4, 4, 3], &[30, 31]),
];

/// A change of block 0 with its counts before and after, as a journal may have them.
const RISING: [Piece; 1] = [(&[LETTERS, 2, 256, 4, 1, 0, 1, 2, 65_536, 0], &[20, 21])];

/// Such a change with counts that none has.
const FALLING: [Piece; 1] = [(&[LETTERS, 2, 256, 4, 1, 0, 1, 4, 3, 0], &[20, 21])];

const FROM_ONE: [Piece; 1] = [(&[LETTERS, 2, 256, 4, 1, 0, 1, 1, 4, 0], &[20, 21])];

const TOO_MANY: [Piece; 1] = [(&[LETTERS, 2, 256, 4, 1, 0, 1, 4, 65_537, 0], &[20, 21])];

/// Adds words of four bytes, the lowest first.
fn add_words(bytes: &mut Vec<u8>, words: &[u32]) -> Result<(), AllocError> {
    for word in words {
        bytes.extend_from_slice(&word.to_le_bytes())?;
    }
    Ok(())
}

/// The bytes of pieces.
fn spelled(alloc: Global, pieces: &[Piece]) -> Result<Vec<u8>, AllocError> {
    let mut bytes = Vec::new(alloc);
    for (words, fills) in pieces {
        add_words(&mut bytes, words)?;
        add_fills(&mut bytes, fills)?;
    }
    Ok(bytes)
}

/// The journal of pieces.
fn journal_of(alloc: Global, pieces: &[Piece]) -> Option<Journal> {
    match spelled(alloc, pieces) {
        Ok(bytes) => Journal::read(alloc, &bytes).ok(),
        Err(_) => None,
    }
}

/// Whether pieces are no journal.
fn are_none(alloc: Global, pieces: &[Piece]) -> bool {
    match spelled(alloc, pieces) {
        Ok(bytes) => Journal::read(alloc, &bytes).err() == Some(JournalFault::JournalFormat),
        Err(_) => false,
    }
}

/// Whether bytes are those of pieces.
fn are_spelled(alloc: Global, bytes: Option<Vec<u8>>, pieces: &[Piece]) -> bool {
    match spelled(alloc, pieces) {
        Ok(wanted) => bytes.as_deref() == Some(wanted.as_slice()),
        Err(_) => false,
    }
}

/// The bytes of a journal's parts.
fn parts_written(alloc: Global, journal: Journal) -> Option<Vec<u8>> {
    let size = journal.size();
    let count = journal.count();
    let (patches, done) = journal.into_parts();
    write_journal(alloc, size, count, &patches, done)
}

/// The journal of a journal's parts.
fn made_again(journal: Journal) -> Journal {
    let size = journal.size();
    let count = journal.count();
    let (patches, done) = journal.into_parts();
    Journal::new(size, count, patches, done)
}

/// Whether the journal that nothing was done to is read.
fn is_fresh(journal: &Journal) -> bool {
    journal.size() == 512
        && journal.count() == 8
        && journal.patches().is_empty()
        && journal.done() == 0
}

/// Whether it is written as it is read.
fn is_written_again(alloc: Global) -> bool {
    let Ok(journal) = Journal::read(alloc, &FRESH) else {
        return false;
    };
    match journal.write(alloc) {
        Some(written) => is_fresh(&journal) && written.as_slice() == FRESH.as_slice(),
        None => false,
    }
}

#[test]
fn fresh_journal_is_read_and_written(rt: HostRuntime) {
    assert!(rt; is_written_again(rt.alloc()));
}

/// Whether a journal has so many changes, of which one is made, and is written as they are spelled.
fn has_both(alloc: Global, journal: &Journal, pieces: &[Piece]) -> bool {
    journal.patches().len() == 2
        && journal.done() == 1
        && are_spelled(alloc, journal.write(alloc), pieces)
}

/// Whether the parts of the journal of pieces are that journal again.
fn is_made_again(alloc: Global, pieces: &[Piece]) -> bool {
    match journal_of(alloc, pieces) {
        Some(journal) => {
            let again = made_again(journal);
            has_both(alloc, &again, pieces)
                && are_spelled(alloc, parts_written(alloc, again), pieces)
        }
        None => false,
    }
}

#[test]
fn parts_are_a_journal_again(rt: HostRuntime) {
    assert!(rt; is_made_again(rt.alloc(), &CHANGES));
}

/// Whether a journal has two changes, of which the second leads from four blocks to so many.
fn has_two_changes(journal: &Journal, after: u32) -> bool {
    match journal.patches() {
        [first, second] => {
            first.before() == 4
                && first.after() == 4
                && second.before() == 4
                && second.after() == after
        }
        _ => false,
    }
}

/// Whether a journal has the two changes of an image of 4 blocks of 256 bytes.
fn has_changes(alloc: Global) -> bool {
    match journal_of(alloc, &CHANGES) {
        Some(journal) => {
            journal.size() == 256 && journal.count() == 4 && has_two_changes(&journal, 6)
        }
        None => false,
    }
}

#[test]
fn changes_have_their_counts(rt: HostRuntime) {
    assert!(rt; has_changes(rt.alloc()));
}

/// Whether a journal of version 1 is written in version 2.
fn is_written_anew(alloc: Global) -> bool {
    match journal_of(alloc, &VERSION_ONE) {
        Some(journal) => {
            has_two_changes(&journal, 4) && are_spelled(alloc, journal.write(alloc), &VERSION_TWO)
        }
        None => false,
    }
}

#[test]
fn version_one_is_read_and_version_two_written(rt: HostRuntime) {
    assert!(rt; is_written_anew(rt.alloc()));
}

#[test]
fn blocks_behind_the_end_are_erased_before(rt: HostRuntime) {
    assert!(rt; are_none(rt.alloc(), &NOT_ERASED));
}

/// Whether a journal's change may have rising counts.
fn is_rising(alloc: Global) -> bool {
    match journal_of(alloc, &RISING) {
        Some(journal) => journal.done() == 1,
        None => false,
    }
}

#[test]
fn counts_keep_their_limits(rt: HostRuntime) {
    assert!(rt; is_rising(rt.alloc()));
    for pieces in [&FALLING, &FROM_ONE, &TOO_MANY] {
        assert!(rt; are_none(rt.alloc(), pieces));
    }
}
