//! The contents of a file, read beside other bytes.

ghost use Rattle.std.specs.Prelude.{◌≡◌, ◌<◌, ◌≤◌, All, bytes_eq, length};
ghost use Rattle.lfs_file.specs.Content.{content};
ghost use Rattle.lfs_fs.specs.Entry.{Chain};
ghost use Rattle.lfs_fs.specs.Outlined.{blank};
ghost use Rattle.lfs_listing.specs.Comparing.{IsReadable, TakesOff};

use crate::unread::Unread;
use lfs_block::Blocks;
use lfs_file::read_file;

/// Whether what is unread begins with the contents of a file of `size` bytes in these blocks, which are taken off then.
pub(crate) fn begins_with<A: Blocks, B: Blocks>(
    unread: &mut Unread<'_, B>,
    disk: &A,
    blocks: &[u32],
    size: u32,
) -> bool
    requires below { All (λ b. b < (A.disk disk.now).count) blocks.now }
    requires few { length blocks.now ≤ (A.disk disk.now).count }
    ensures { TakesOff result unread.old unread.new (content (A.disk disk.now) size blocks.now) }
{
    for slice in read_file(disk, blocks, size) {
        if !unread.takes(slice) {
            return false;
        }
    }
    true
}

/// Whether a file of `size` bytes in these blocks has these contents: where their length is another one, nothing is read.
pub fn has_contents<A: Blocks>(disk: &A, blocks: &[u32], size: u32, bytes: &[u8]) -> bool
    requires { IsReadable (A.disk disk.now) (Chain blocks.now (blank size)) }
    ensures { result ≡ bytes_eq (content (A.disk disk.now) size blocks.now) bytes.now }
{
    if size as usize != bytes.len() {
        return false;
    }
    let mut unread = Unread::of_bytes(disk, bytes);
    begins_with(&mut unread, disk, blocks, size)
}
