//! The tags of a log, one after another.

ghost use Rattle.std.specs.Prelude.{◌≡◌};
ghost use Rattle.std.specs.Iterator.{YieldsFirstBy, item_count};

use crate::reading::{tag_at, word_after};
use crate::tag::{CHECKSUM, FIRST_WORD, Tag};
use std::marker::Model;

/// The tags of a log with their data, in order, without those of checksums. It stands for the list of those that are
/// left.
#[derive(Drop)]
pub struct Tags<'a> {
    prev: u32,
    bytes: &'a [u8],
}

impl<'a> Model for Tags<'a> {
    ghost use Rattle.std.specs.Prelude.{List};
    ghost use Rattle.lfs_tag.specs.Commit.{Item};
    ghost use Rattle.lfs_tag.specs.Reading.{tags_at};

    ghost Value = { List Item };

    ghost view = { λ tags. tags_at tags.prev tags.bytes.now };
}

impl<'a> Tags<'a> {
    ghost use Rattle.std.specs.Prelude.{◌≡◌};
    ghost use Rattle.lfs_tag.specs.Reading.{tags_at};

    pub(crate) fn new(bytes: &'a [u8]) -> Tags<'a>
        ensures { result ≡ tags_at 0xffffffff bytes.now }
    {
        Tags {
            prev: FIRST_WORD,
            bytes,
        }
    }
}

impl<'a> Iterator for Tags<'a> {
    ghost use Rattle.std.specs.Iterator.{YieldsFirstBy, item_count};
    ghost use Rattle.lfs_tag.specs.Tags.{item_with};

    type Item = (Tag, &'a [u8]);

    ghost next_gives = { YieldsFirstBy (λ read. item_with read.0 read.1.now) (λ left. left) };

    ghost remaining = { item_count (λ left. left) };

    fn next(&mut self) -> Option<(Tag, &'a [u8])> {
        while let Some(found) = tag_at(self.prev, self.bytes) {
            self.bytes = found.rest;
            if found.tag.main_kind() != CHECKSUM {
                self.prev = found.tag.word();
                return Some((found.tag, found.content));
            }
            self.prev = word_after(found.tag);
        }
        None
    }
}
