//! The digests of files' contents.

ghost use Rattle.std.specs.Prelude.{◌≡◌, ◌<◌, ◌≤◌, All, length};
ghost use Rattle.sha2.specs.Sha256.{sha256};
ghost use Rattle.lfs_file.specs.Content.{content};
ghost use Rattle.lfs_listing.specs.Comparing.{IsReadable};
ghost use Rattle.lfs_listing.specs.Digests.{digest_of};

use lfs_block::Blocks;
use lfs_file::read_file;
use lfs_fs::{Row, RowBody};
use sha2::{Digest, Sha256};

/// How many bytes a digest has.
pub(crate) const DIGEST: usize = 32;

/// The digest of a file of `size` bytes in these blocks.
fn digest_of_chain<A: Blocks>(disk: &A, blocks: &[u32], size: u32) -> [u8; DIGEST]
    requires below { All (λ b. b < (A.disk disk.now).count) blocks.now }
    requires few { length blocks.now ≤ (A.disk disk.now).count }
    ensures { result ≡ sha256 (content (A.disk disk.now) size blocks.now) }
{
    let mut hasher = Sha256::new();
    for slice in read_file(disk, blocks, size) {
        hasher.update(slice);
    }
    hasher.finalize()
}

/// The digest of what a row holds; a directory has none.
pub(crate) fn digest_of<A: Blocks>(disk: &A, row: &Row<'_>) -> Option<[u8; DIGEST]>
    requires { IsReadable (A.disk disk.now) row.now.entry.body }
    ensures { result ≡ digest_of (A.disk disk.now) row.now.entry.body }
{
    match row.body {
        RowBody::Directory(..) => None,
        RowBody::Inline(bytes) => Some(Sha256::digest(bytes)),
        RowBody::Chain { blocks, size } => Some(digest_of_chain(disk, blocks, size)),
    }
}
