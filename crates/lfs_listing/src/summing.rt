//! What rows take with those below them.

ghost use Rattle.std.specs.Prelude.{◌≡◌, ◌+◌, ◌<◌, ◌^◌, ℕ, IfOk, length, slice_index, sum};
ghost use Rattle.lfs_listing.specs.Summing.{AreSummed, IsNext, depth_sum};

use std::alloc::{AllocError, Global};

/// What a row takes with those below it, and the row that comes behind these, where both are known of each row behind it.
fn sum_below(
    depths: &[usize],
    counts: &[u32],
    sums: &[u32],
    nexts: &[usize],
    row: usize,
) -> (u32, usize)
    requires row { row < length depths.now }
    requires counts { length counts.now ≡ length depths.now }
    requires sums { length sums.now ≡ length depths.now }
    requires nexts { length nexts.now ≡ length depths.now }
    requires few { sum counts.now < 2 ^ 32 }
    requires summed { AreSummed depths.now counts.now sums.now nexts.now (row + 1) }
    ensures sum { result.0 ≡ depth_sum depths.now counts.now row }
    ensures next { IsNext depths.now row result.1 }
{
    let mut total = counts[row];
    let mut next = row + 1;
    'below: while next < depths.len() && depths[row] < depths[next] {
        total += sums[next];
        next = nexts[next];
    }
    (total, next)
}

/// Sums up rows, the last one first.
fn sum_each(depths: &[usize], counts: &[u32], sums: &mut [u32], nexts: &mut [usize])
    requires counts { length counts.now ≡ length depths.now }
    requires sums { length sums.old ≡ length depths.now }
    requires nexts { length nexts.old ≡ length depths.now }
    requires few { sum counts.now < 2 ^ 32 }
    ensures { (row : ℕ) → row < length depths.now → slice_index sums.new row ≡ depth_sum depths.now counts.now row }
{
    let mut row = depths.len();
    'rows: while row > 0 {
        row -= 1;
        let (total, next) = sum_below(depths, counts, sums, nexts, row);
        sums[row] = total;
        nexts[row] = next;
    }
}

/// How many blocks rows take with those below them, where this is how deep they are, and how many each of them has.
pub(crate) fn sums_of(
    alloc: Global,
    depths: &[usize],
    counts: &[u32],
) -> Result<Vec<u32>, AllocError>
    requires counts { length counts.now ≡ length depths.now }
    requires few { sum counts.now < 2 ^ 32 }
    ensures len { IfOk result (λ sums. length sums.items ≡ length depths.now) }
    ensures sums { IfOk result (λ sums. (row : ℕ) → row < length depths.now → slice_index sums.items row ≡ depth_sum depths.now counts.now row) }
{
    let mut sums = vec![in alloc; 0; depths.len()]?;
    let mut nexts = vec![in alloc; 0; depths.len()]?;
    sum_each(depths, counts, &mut sums, &mut nexts);
    Ok(sums)
}
