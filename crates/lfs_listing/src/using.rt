//! Which rows have blocks.

ghost use Rattle.std.specs.Prelude.{◌≡◌, Some, flat_map, fold};
ghost use Rattle.lfs_listing.specs.BlockMap.{blocks_of_directory, blocks_of_part};
ghost use Rattle.lfs_listing.specs.Using.{give, given_body};

use crate::directory_numbers::NumberedDirectories;
use lfs_fs::{OutlineDirectory, OutlinePart, Row, RowBody};

/// Notes the row of a block by its number, where none is noted yet.
fn give(users: &mut [Option<usize>], block: u32, number: usize)
    ensures { users.new ≡ give number users.old block }
{
    let index = block as usize;
    if index < users.len() && users[index].is_none() {
        users[index] = Some(number);
    }
}

/// The same of blocks.
fn give_each(users: &mut [Option<usize>], blocks: &[u32], number: usize)
    ensures { users.new ≡ fold (give number) users.old blocks.now }
{
    for &block in blocks {
        give(users, block, number);
    }
}

/// The same of the pair of a part.
fn give_part(users: &mut [Option<usize>], part: &OutlinePart, number: usize)
    ensures { users.new ≡ fold (give number) users.old (blocks_of_part part.now) }
{
    let (first, second) = part.pair;
    give(users, first, number);
    give(users, second, number);
}

/// The same of the pairs of parts.
fn give_parts(users: &mut [Option<usize>], parts: &[OutlinePart], number: usize)
    ensures { users.new ≡ fold (give number) users.old (flat_map blocks_of_part parts.now) }
{
    'each: for part in parts {
        give_part(users, part, number);
    }
}

/// The same of the pairs of a directory.
fn give_directory(users: &mut [Option<usize>], directory: &OutlineDirectory, number: usize)
    ensures { users.new ≡ fold (give number) users.old (blocks_of_directory (Some directory.now)) }
{
    give_part(users, &directory.parts.first, number);
    give_parts(users, &directory.parts.more, number);
}

/// Notes a row by its number for the blocks that it has, where none is noted yet: those of its directory, or of its file's chain.
pub(crate) fn give_row(
    users: &mut [Option<usize>],
    directories: &NumberedDirectories<'_>,
    row: &Row<'_>,
    number: usize,
)
    ensures { users.new ≡ given_body directories.now number users.old row.now.entry.body }
{
    match row.body {
        RowBody::Inline(_) => {}
        RowBody::Chain { blocks, .. } => give_each(users, blocks, number),
        RowBody::Directory(first, second) => {
            if let Some(directory) = directories.find(first, second) {
                give_directory(users, directory, number);
            }
        }
    }
}
