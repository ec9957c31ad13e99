//! A commit as version 2.1 reads it, and what is kept of its tags.

ghost use Rattle.std.specs.Prelude.{◌≡◌, ◌++◌, [], ◌∷◌, length, option_map, OnOk, IfOk};
ghost use Rattle.lfs_tag.specs.EditData.{data_bytes};
ghost use Rattle.lfs_tag.specs.Tag.{data_len, word_of};
ghost use Rattle.lfs_tag.specs.Tags.{item_with};
ghost use Rattle.lfs_lower.specs.Commits.{later_at};
ghost use Rattle.lfs_lower.specs.Kept.{IsCommitPushed, IsCommitRead, IsPushed, items_kept};
ghost use Rattle.lfs_lower.specs.Spelled.{lowered_header, tags_lowered};

use crate::header::lower_header;
use crate::seen_commit::closes;
use crate::told::SUPERBLOCK_WORD;
use lfs_block::crc32;
use lfs_tag::{CHECKSUM, Committed, Edit, EditData, Tag, closed, tag_at};
use std::alloc::AllocError;

/// The data of a superblock's struct, with version 2.0 in the place of 2.1.
fn lowered_header<'a>(content: &'a [u8]) -> EditData<'a>
    requires { length content.now ≡ 24 }
    ensures { data_bytes result ≡ lowered_header content.now }
{
    let mut header = [0; 24];
    header.copy_from_slice(content);
    lower_header(&mut header);
    EditData::Header(header)
}

/// The data that is kept of a tag.
fn kept_data<'a>(in_root: bool, tag: Tag, content: &'a [u8]) -> EditData<'a>
    requires { length content.now ≡ data_len (word_of tag) }
    ensures { item_with tag (data_bytes result) ∷ [] ≡ tags_lowered in_root (item_with tag content.now ∷ []) }
{
    if in_root && tag.word() == SUPERBLOCK_WORD {
        lowered_header(content)
    } else {
        EditData::Bytes(content)
    }
}

/// Adds what is kept of a tag: nothing where it says nothing.
fn push_kept<'a>(
    in_root: bool,
    tag: Tag,
    content: &'a [u8],
    edits: &mut Vec<Edit<'a>>,
) -> Result<(), AllocError>
    requires { length content.now ≡ data_len (word_of tag) }
    ensures { OnOk result (IsPushed edits.old.items (items_kept in_root (item_with tag content.now ∷ [])) edits.new.items) }
{
    if tag.main_kind() == CHECKSUM {
        return Ok(());
    }
    let content = kept_data(in_root, tag, content);
    edits.push(Edit { tag, content })?;
    Ok(())
}

/// The commit at the front of `bytes`, behind the word `prev`, where `sum` is the checksum of what it covers before them. Adds what is
/// kept of the tags at their front, also where no commit stands there.
fn read_commit<'a>(
    in_root: bool,
    mut sum: u32,
    mut prev: u32,
    bytes: &'a [u8],
    edits: &mut Vec<Edit<'a>>,
) -> Result<Option<Committed<'a>>, AllocError>
    ensures { IfOk result (λ found. IsCommitPushed in_root edits.old.items (later_at sum prev bytes.entry.now) found edits.new.items) }
{
    let mut rest = bytes;
    while let Some(found) = tag_at(prev, rest) {
        sum = crc32(sum, found.stored);
        if closes(found.tag) {
            return Ok(closed(sum, found));
        }
        sum = crc32(sum, found.content);
        push_kept(in_root, found.tag, found.content, edits)?;
        prev = found.tag.word();
        rest = found.rest;
    }
    Ok(None)
}

/// The commit at the front of `bytes`, behind the word `prev`, where `sum` is the checksum of what it covers before them. Adds what is
/// kept of its tags: where no commit stands there, the list is as it was.
pub(crate) fn commit_at<'a>(
    in_root: bool,
    sum: u32,
    prev: u32,
    bytes: &'a [u8],
    edits: &mut Vec<Edit<'a>>,
) -> Result<Option<Committed<'a>>, AllocError>
    ensures { IfOk result (λ found. IsCommitRead in_root edits.old.items (later_at sum prev bytes.now) found edits.new.items) }
{
    let before = edits.len();
    let found = read_commit(in_root, sum, prev, bytes, edits)?;
    if found.is_none() {
        edits.truncate(before);
    }
    Ok(found)
}
