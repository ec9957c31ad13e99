//! Parts that are set, weighed and cut.

ghost use Rattle.std.specs.Prelude.{◌≡◌, ◌<◌, ◌≤◌, ◌∷◌, [], All, length, sum_by, IfOk, IfSome};
ghost use Rattle.lfs_fs.specs.Directory.{thread};
ghost use Rattle.lfs_command.specs.Cut.{HasEnough};
ghost use Rattle.lfs_command.specs.Need.{dirty_parts, part_blocks};
ghost use Rattle.lfs_cut.specs.Chosen.{HasPairsOnce, chosen_for};

use crate::images::image_of;
use arrayvec::ArrayVec;
use lfs_block::Image;
use lfs_command::Refusal;
use lfs_cut::{NewPairs, choose, clean, cut, needed};
use lfs_draft::new_entry;
use lfs_fs::{
    Delta, Limits, Outline, OutlineBody, OutlineDirectory, OutlineEntry, OutlinePart, UsedBlocks,
    mount, outlines_are_sound,
};
use std::alloc::{AllocError, Global};

// a letter of a name, how many of them it is, and whether it is a directory's, which weighs 16 more than its name is long, or an
// empty file's, which weighs 8 more
type Row = (u8, u8, bool);

const ROWS: [Row; 3] = [(b'a', 80, false), (b'b', 130, true), (b'c', 80, false)];

// the entry of a row
fn entry(alloc: Global, row: &Row) -> Result<OutlineEntry, AllocError> {
    let (letter, len, is_directory) = *row;
    let mut name = Vec::new(alloc);
    name.resize(usize::from(len), letter)?;
    if is_directory {
        new_entry(alloc, &name, OutlineBody::Directory(2, 3))
    } else {
        new_entry(alloc, &name, OutlineBody::Inline(Vec::new(alloc)))
    }
}

// the entries of the part that is cut
fn three_entries(alloc: Global) -> Result<Vec<OutlineEntry>, AllocError> {
    let mut entries = Vec::new(alloc);
    for row in &ROWS {
        entries.push(entry(alloc, row)?)?;
    }
    Ok(entries)
}

// an outline of 64 blocks with these directories, without attributes
fn outline(alloc: Global, size: u32, directories: Vec<OutlineDirectory>) -> Outline
    ensures size { result.size ≡ size }
    ensures directories { result.directories ≡ directories.items }
{
    Outline {
        size,
        count: 64,
        limits: Limits {
            name: 255,
            file: 2_147_483_647,
            attribute: 1_022,
        },
        attributes: Vec::new(alloc),
        directories,
    }
}

// a directory of one part, which is set
fn directory(
    alloc: Global,
    pair: (u32, u32),
    entries: Vec<OutlineEntry>,
) -> Result<OutlineDirectory, AllocError>
    requires { length entries.items < 32768 }
    ensures more { IfOk result (λ d. d.more ≡ []) }
    ensures pair { IfOk result (λ d. d.first.pair ≡ pair) }
    ensures few { IfOk result (λ d. length d.first.entries < 32768) }
{
    let part = OutlinePart {
        pair,
        entries,
        delta: Delta::none(),
        dirty: true,
    };
    OutlineDirectory::new(alloc, part, Vec::new(alloc))
}

// an outline of one such directory, of few entries
fn one_part(
    alloc: Global,
    size: u32,
    pair: (u32, u32),
    entries: Vec<OutlineEntry>,
) -> Option<Outline>
    ensures size { IfSome result (λ o. o.size ≡ size) }
    ensures few { IfSome result (λ o. sum_by (λ p. length p.entries) (thread o.directories) < 65536) }
    ensures once { IfSome result (λ o. HasPairsOnce o) }
    ensures parts { IfSome result (λ o. length (thread o.directories) ≤ 2) }
{
    if entries.len() >= 32_768 {
        return None;
    }
    let Ok(directory) = directory(alloc, pair, entries) else {
        return None;
    };
    match vec![in alloc; directory] {
        Ok(directories) => Some(outline(alloc, size, directories)),
        Err(_) => None,
    }
}

// the blocks that an image uses
fn used_of(alloc: Global, image: &Image) -> Option<UsedBlocks> {
    outlines_are_sound();
    match mount(alloc, image) {
        Ok(mounted) => mounted.into_outline().used_blocks(alloc).ok(),
        Err(_) => None,
    }
}

// the blocks of a new image of 64 blocks, of which all but two are free
fn used_blocks(alloc: Global) -> Option<UsedBlocks> {
    match image_of(alloc, 256, 64) {
        Some(image) => used_of(alloc, &image),
        None => None,
    }
}

// how many new blocks the parts of an outline need, or why there is no room
fn need(outline: &Outline, used: &UsedBlocks) -> Result<u32, Refusal>
    requires size { outline.now.size ≤ 65536 }
    requires few { sum_by (λ p. length p.entries) (thread outline.now.directories) < 65536 }
    ensures { IfOk result (λ need. need ≡ sum_by (part_blocks outline.now) (dirty_parts outline.now)) }
{
    needed(outline, outline.directories.len(), 0, used)
}

// the pairs for the new parts of an outline, which needs as many blocks: as many as there are runs behind first ones
fn rows_of(
    alloc: Global,
    outline: &Outline,
    used: &UsedBlocks,
    blocks: &[u32],
) -> Option<ArrayVec<NewPairs, 2, Global>>
    requires size { outline.now.size ≤ 65536 }
    requires few { sum_by (λ p. length p.entries) (thread outline.now.directories) < 65536 }
    requires once { HasPairsOnce outline.now }
    requires parts { length (thread outline.now.directories) ≤ 2 }
    ensures { IfSome result (λ rows. All (HasEnough (chosen_for rows.items) outline.now) (thread outline.now.directories)) }
{
    let front = outline.directories.len();
    match need(outline, used) {
        Ok(need) if need as usize == blocks.len() => {
            choose(alloc, outline, front, None, blocks).ok()
        }
        _ => None,
    }
}

// whether a part has a pair, and one entry whose name begins with a letter
fn begins(part: &OutlinePart, pair: (u32, u32), letter: u8) -> bool {
    match part.entries.as_slice() {
        [entry] => part.pair == pair && entry.name.first() == Some(&letter),
        _ => false,
    }
}

// the pairs of the parts behind the first, and the letters of their entries
const BEHIND: [((u32, u32), u8); 2] = [((5, 6), b'b'), ((9, 7), b'c')];

// whether these are the parts behind the first, which aren't set any more
fn are_behind(parts: &[OutlinePart]) -> bool {
    for (part, (pair, letter)) in parts.iter().zip(&BEHIND) {
        if part.dirty || !begins(part, *pair, *letter) {
            return false;
        }
    }
    parts.len() == 2
}

// whether a part was cut into three
fn is_cut(outline: &Outline) -> bool {
    match outline.directories.as_slice() {
        [directory] => begins(&directory.parts.first, (0, 1), b'a')
            && are_behind(&directory.parts.more),
        _ => false,
    }
}

// whether the parts of an outline are cut into blocks, and clean then
fn cuts(alloc: Global, outline: &mut Outline, rows: &[NewPairs]) -> bool
    requires size { outline.old.size ≤ 65536 }
    requires enough { All (HasEnough (chosen_for rows.now) outline.old) (thread outline.old.directories) }
{
    let front = outline.directories.len();
    match cut(alloc, outline, front, rows) {
        Ok(()) => {
            clean(outline, front);
            is_cut(outline)
        }
        Err(_) => false,
    }
}

// whether the part of these entries is cut into these blocks
fn is_cut_into(alloc: Global, entries: Vec<OutlineEntry>, blocks: &[u32]) -> bool {
    let Some(used) = used_blocks(alloc) else {
        return false;
    };
    let Some(mut outline) = one_part(alloc, 256, (0, 1), entries) else {
        return false;
    };
    match rows_of(alloc, &outline, &used, blocks) {
        Some(rows) => cuts(alloc, &mut outline, &rows),
        None => false,
    }
}

// whether the part of the three entries is
fn three_are_cut(alloc: Global) -> bool {
    match three_entries(alloc) {
        Ok(entries) => is_cut_into(alloc, entries, &[5, 6, 9, 7]),
        Err(_) => false,
    }
}

// In a room of 216 bytes the runs weigh 128, with the superblock's 40, 146 and 88.
#[test]
fn parts_are_cut_into_the_next_blocks(rt: HostRuntime) {
    assert!(rt; three_are_cut(rt.alloc()));
}
