//! Whether a directory of an image may go on in a part without an entry: a quick test before a survey.

use lfs_block::little_word;
use lfs_lower::closes;
use lfs_tag::{CHECKSUM, FIRST_WORD, Found, tag_at, word_after};
use std::alloc::{AllocError, Global};

/// The type of a tag by which an entry goes in.
const CREATE: u16 = 0x401;
/// The type of a tag by which an entry goes.
const DELETE: u16 = 0x4ff;
/// The least main type that is none of names.
const LEAST_BEYOND_NAMES: u16 = 1;
/// The types of the tails by which the thread and a directory go on.
const SOFT_TAIL: u16 = 0x600;

const HARD_TAIL: u16 = 0x601;

/// What the tags of a block leave, whether their checksums are right or not.
#[derive(Clone, Copy)]
struct Glance {
    /// The number of entries.
    entries: usize,
    /// The pair in which the directory goes on.
    next: Option<(u32, u32)>,
}

/// Two words, as a tail names its pair.
fn pair_in(content: &[u8]) -> Option<(u32, u32)> {
    if content.len() < 8 {
        return None;
    }
    let (first, second) = content.split_at(4);
    Some((little_word(first), little_word(second)))
}

impl Glance {
    /// What one tag more leaves.
    fn with(self, found: &Found<'_>) -> Glance {
        let Glance { entries, next } = self;
        let id = usize::from(found.tag.id);
        match found.tag.kind {
            CREATE => Glance {
                entries: entries.saturating_add(1),
                next,
            },
            DELETE => Glance {
                entries: entries.saturating_sub(1),
                next,
            },
            SOFT_TAIL => Glance {
                entries,
                next: None,
            },
            HARD_TAIL => Glance {
                entries,
                next: pair_in(found.content),
            },
            kind if kind >> 8 < LEAST_BEYOND_NAMES => Glance {
                entries: entries.max(id + 1),
                next,
            },
            _ => self,
        }
    }
}

/// The word that the tag after one is XORed with.
fn word_behind(found: &Found<'_>) -> u32 {
    if closes(found.tag) {
        word_after(found.tag)
    } else {
        found.tag.word()
    }
}

/// What the commits of a block leave; `None` if it has none.
fn glance_at(block: &[u8]) -> Option<Glance> {
    let mut rest = block.get(4..)?;
    let mut prev = FIRST_WORD;
    let mut so_far = Glance {
        entries: 0,
        next: None,
    };
    let mut left = None;
    while let Some(found) = tag_at(prev, rest) {
        if closes(found.tag) {
            left = Some(so_far);
        } else if found.tag.main_kind() != CHECKSUM {
            so_far = so_far.with(&found);
        }
        prev = word_behind(&found);
        rest = found.rest;
    }
    left
}

/// Marks a block, if it is the table's.
fn mark(table: &mut [bool], block: usize) {
    if let Some(flag) = table.get_mut(block) {
        *flag = true;
    }
}

/// Whether a block without entries may be in a pair in which a directory goes on, of blocks of `size` bytes. Takes memory.
pub(crate) fn may_be_empty(alloc: Global, size: usize, bytes: &[u8]) -> Result<bool, AllocError> {
    let count = bytes.len().checked_div(size).unwrap_or(0);
    let mut gone_on = vec![in alloc; false; count]?;
    let mut empty = vec![in alloc; false; count]?;
    for (number, block) in bytes.chunks(size.max(1)).enumerate() {
        let Some(glance) = glance_at(block) else {
            continue;
        };
        if glance.entries == 0 {
            mark(&mut empty, number);
        }
        if let Some((first, second)) = glance.next {
            mark(&mut gone_on, first as usize);
            mark(&mut gone_on, second as usize);
        }
    }
    Ok(
        gone_on
            .iter()
            .zip(empty.iter())
            .any(|(gone_on, empty)| *gone_on && *empty),
    )
}
