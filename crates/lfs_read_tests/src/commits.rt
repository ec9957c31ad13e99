//! Tags and logs, by vectors from outside.

use lfs_tag::{Log, Tag, write_commit};

/// Block 0 of an image of 8 blocks of 512 bytes, up to the end of its one commit: revision 1 and the superblock.
pub(crate) const FORMATTED: [u8; 64] = [
    0x01, 0x00, 0x00, 0x00, 0xf0, 0x0f, 0xff, 0xf7, 0x6c, 0x69, 0x74, 0x74, 0x6c, 0x65, 0x66, 0x73,
    0x2f, 0xe0, 0x00, 0x10, 0x00, 0x00, 0x02, 0x00, 0x00, 0x02, 0x00, 0x00, 0x08, 0x00, 0x00, 0x00,
    0xff, 0x00, 0x00, 0x00, 0xff, 0xff, 0xff, 0x7f, 0xfe, 0x03, 0x00, 0x00, 0x70, 0x1f, 0xfc, 0x08,
    0xc8, 0x95, 0xba, 0xf9, 0xff, 0xff, 0xff, 0xff, 0xff, 0xff, 0xff, 0xff, 0xff, 0xff, 0xff, 0xff,
];

/// A commit behind `FORMATTED`, closed by a tag of type 0x501: an attribute of three bytes and a deleted one.
const WITH_TOP_BIT: [u8; 32] = [
    0x64, 0x2f, 0xf8, 0x13, 0x61, 0x62, 0x63, 0x00, 0x10, 0x03, 0xfc, 0x64, 0x2f, 0xfb, 0xee, 0x2c,
    0x40, 0x02, 0x3a, 0xff, 0xff, 0xff, 0xff, 0xff, 0xff, 0xff, 0xff, 0xff, 0xff, 0xff, 0xff, 0xff,
];

/// A commit behind `WITH_TOP_BIT`: one entry is created.
const CREATED: [u8; 16] = [
    0x90, 0x0f, 0xf8, 0x11, 0x10, 0x1f, 0xf8, 0x08, 0x9d, 0x91, 0x89, 0x72, 0xff, 0xff, 0xff, 0xff,
];

/// A commit with no tags behind `FORMATTED`.
const EMPTY: [u8; 16] = [
    0x00, 0x00, 0x00, 0x1c, 0xac, 0x7c, 0xba, 0xca, 0xff, 0xff, 0xff, 0xff, 0xff, 0xff, 0xff, 0xff,
];

/// A block that is erased behind the parts.
fn block_of(parts: &[&[u8]]) -> [u8; 128] {
    let mut block = [0xff; 128];
    let mut end = 0;
    for part in parts {
        for byte in *part {
            if end < 128 {
                block[end] = *byte;
                end += 1;
            }
        }
    }
    block
}

/// A tag's word, the word before it, how it is stored, its main type, its chunk, and the bytes of its data.
type Row = (u32, u32, u32, u16, u16, usize);

const TAGS: [Row; 4] = [
    (0x0ff0_0008, 0xffff_ffff, 0xf00f_fff7, 0, 0xff, 8),
    (0x2010_0018, 0x0ff0_0008, 0x2fe0_0010, 2, 1, 24),
    (0x500f_fc10, 0x2010_0018, 0x701f_fc08, 5, 0, 16),
    (0x3430_07ff, 0, 0x3430_07ff, 3, 0x43, 0),
];

/// Whether a tag is spelled so, and has these fields.
fn is_spelled(row: &Row) -> bool {
    let (word, before, stored, main_kind, chunk, data_len) = *row;
    match Tag::decode(stored, before) {
        Some(tag) => {
            tag.word() == word
                && tag.encode(before) == stored
                && tag.main_kind() == main_kind
                && tag.chunk() == chunk
                && tag.data_len() == data_len
        }
        None => false,
    }
}

#[test]
fn tags_are_spelled(rt: HostRuntime) {
    for row in &TAGS {
        assert!(rt; is_spelled(row));
    }
    assert!(rt; Tag::decode(0xffff_ffff, 0).is_none());
}

#[test]
fn writes_a_commit_behind_a_log(rt: HostRuntime) {
    let mut block = block_of(&[&FORMATTED]);
    let last = Log::read(&block).last;
    let written = write_commit(&mut block, 64, last, &[]);
    assert!(rt; written == (80, 0x500f_fc0c));
    assert!(rt; block == block_of(&[&FORMATTED, &EMPTY]));
}

/// The words of the tags of all commits.
const WORDS: [u32; 5] = [
    0x0ff0_0008,
    0x2010_0018,
    0x3420_0403,
    0x3430_07ff,
    0x4010_0400,
];

/// Whether the tags of a log are those of these words.
fn has_words(log: &Log<'_>) -> bool {
    let mut tags = log.tags();
    for word in &WORDS {
        match tags.next() {
            Some((tag, _)) if tag.word() == *word => {}
            _ => return false,
        }
    }
    tags.next().is_none()
}

/// Whether a log has three commits, of which the last ends where the block is erased.
fn has_three_commits(log: &Log<'_>) -> bool {
    log.end == 112 && log.commits == 3 && log.last == 0x500f_fc08 && log.erased
}

#[test]
fn reads_a_log_of_three_commits(rt: HostRuntime) {
    let block = block_of(&[&FORMATTED, &WITH_TOP_BIT, &CREATED]);
    let log = Log::read(&block);
    assert!(rt; has_three_commits(&log));
    assert!(rt; has_words(&log));
}
