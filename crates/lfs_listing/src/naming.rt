//! Whether a patch names blocks.

ghost use Rattle.std.specs.Prelude.{◌≡◌, All, None, is_some, true};
ghost use Rattle.lfs_block.specs.Change.{IsRising, change_of};

use lfs_block::Record;

/// Whether one of the changes, whose numbers rise, is of block `n`.
fn names(records: &[Record], n: u32) -> bool
    requires { IsRising records.now }
    ensures { result ≡ is_some (change_of n records.now) }
{
    let at = records.partition_point(|record| record.number < n);
    match records.get(at) {
        Some(record) => record.number == n,
        None => false,
    }
}

/// Whether none of the changes, whose numbers rise, is of one of these blocks.
pub(crate) fn names_none(records: &[Record], blocks: &[u32]) -> bool
    requires { IsRising records.now }
    ensures { result ≡ true → All (λ b. change_of b records.now ≡ None) blocks.now }
{
    for &block in blocks {
        if names(records, block) {
            return false;
        }
    }
    true
}
