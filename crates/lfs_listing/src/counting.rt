//! How many blocks rows have.

ghost use Rattle.std.specs.Prelude.{◌≡◌, ◌+◌, ◌<◌, ◌^◌, All, IfOk, IfSome, count_by, is_none, length, replicate, slice_index};
ghost use Rattle.lfs_listing.specs.Summing.{AreCounts, counted};

use std::alloc::{AllocError, Global};

/// Counts one more block, of a row or of none.
fn count(counts: &mut [u32], user: Option<usize>)
    requires within { IfSome user (λ row. row < length counts.old) }
    requires few { IfSome user (λ row. slice_index counts.old row + 1 < 2 ^ 32) }
    ensures { counts.new ≡ counted counts.old user }
{
    if let Some(row) = user {
        counts[row] += 1;
    }
}

/// Counts the blocks of each row, of blocks with these rows.
fn count_each(counts: &mut [u32], users: &[Option<usize>])
    requires none { counts.old ≡ replicate (length counts.old) 0 }
    requires within { All (λ u. IfSome u (λ row. row < length counts.old)) users.now }
    requires few { length users.now < 2 ^ 32 }
    ensures { AreCounts users.now (length counts.old) counts.new }
{
    'each: for &user in users {
        count(counts, user);
    }
}

/// How many blocks each of so many rows has, of blocks with these rows.
pub(crate) fn counts_of(
    alloc: Global,
    users: &[Option<usize>],
    rows: usize,
) -> Result<Vec<u32>, AllocError>
    requires within { All (λ u. IfSome u (λ row. row < rows)) users.now }
    requires few { length users.now < 2 ^ 32 }
    ensures { IfOk result (λ counts. AreCounts users.now rows counts.items) }
{
    let mut counts = vec![in alloc; 0; rows]?;
    count_each(&mut counts, users);
    Ok(counts)
}

/// How many blocks have no row.
pub(crate) fn untaken_of(users: &[Option<usize>]) -> usize
    ensures { result ≡ count_by is_none users.now }
{
    users.iter().filter(|user| user.is_none()).count()
}
