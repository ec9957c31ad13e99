//! What stands in an image, beside what a folder has.

ghost use Rattle.std.specs.Prelude.{◌≡◌};
ghost use Rattle.std.specs.Option.{option_map};
ghost use Rattle.lfs_block.specs.Disk.{Disk};
ghost use Rattle.lfs_fs.specs.RowShown.{shown_node};
ghost use Rattle.lfs_listing.specs.Comparing.{IsReadable};
ghost use Rattle.lfs_sync.specs.Shown.{wanted_node};
ghost use Rattle.lfs_sync.specs.Synced.{same_held, same_kind};

use lfs_block::Blocks;
use lfs_fs::{Row, RowBody};
use lfs_listing::has_contents;

/// Whether a row has a file and there are bytes, or it has a directory and there are none.
pub(crate) fn same_kind(row: &Row<'_>, bytes: Option<&[u8]>) -> bool
    ensures { (d : Disk) → result ≡ same_kind (wanted_node (option_map (λ b. b.now) bytes.entry)) (shown_node d row.now.entry) }
{
    match &row.body {
        RowBody::Directory(..) => bytes.is_none(),
        _ => bytes.is_some(),
    }
}

/// Whether a row has a file with these bytes, or a directory where there are none. Where the length is another one, nothing is read,
/// and else slice by slice up to the first that differs.
pub fn same_contents<B: Blocks>(disk: &B, row: &Row<'_>, bytes: Option<&[u8]>) -> bool
    requires { IsReadable (B.disk disk.now) row.now.entry.body }
    ensures { result ≡ same_held (shown_node (B.disk disk.now) row.now.entry) (wanted_node (option_map (λ b. b.now) bytes.entry)) }
{
    match (&row.body, bytes) {
        (RowBody::Directory(..), None) => true,
        (RowBody::Inline(contents), Some(bytes)) => *contents == bytes,
        (RowBody::Chain { blocks, size }, Some(bytes)) => has_contents(disk, blocks, *size, bytes),
        (RowBody::Directory(..), Some(_)) | (_, None) => false,
    }
}
