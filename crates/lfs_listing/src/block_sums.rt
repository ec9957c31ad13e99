//! Sending how many blocks each path takes.

ghost use Rattle.std.specs.Prelude.{◌≡◌, ◌++◌, None, OnOk, Some, drop, false, map, slice_index};
ghost use Rattle.std.specs.Result.{result_err};
ghost use Rattle.lfs_block.specs.Disk.{Disk};
ghost use Rattle.lfs_fs.specs.Listed.{rows_listed};
ghost use Rattle.lfs_fs.specs.Mounted.{IsMountOf};
ghost use Rattle.lfs_listing.specs.BlockSums.{block_sums, sum_line};
ghost use Rattle.lfs_listing.specs.Summing.{sum_lines};
ghost use Rattle.lfs_listing.specs.Unsent.{SendsListing, blames_sink};

use crate::buffer::{send_if_full, send_rest};
use crate::counting::{counts_of, untaken_of};
use crate::gathering::users_with_depths;
use crate::paths::follow_row;
use crate::row_parts::{FREE_END, append_user};
use crate::runs::append_number;
use crate::summing::sums_of;
use crate::unsent::Unsent;
use lfs_fs::{Mounted, Row, Rows, outlines_are_sound};
use lfs_json::{Form, append_json_free_sum, append_json_sum};
use lfs_sink::Sink;
use std::alloc::{AllocError, Global};

/// Adds the line of a row at a path that takes so many blocks.
fn append_sum(
    alloc: Global,
    form: Form,
    text: &mut Vec<u8>,
    sum: u32,
    path: &[&[u8]],
    row: &Row<'_>,
) -> Result<(), AllocError>
    ensures { OnOk result (text.new.items
        ≡ text.old.items ++ sum_line form (Some (record { path = map (λ n. n.now) path.now; entry = row.now.entry })) sum) }
{
    match form {
        Form::Text => {
            append_number(text, sum as usize)?;
            append_user(text, path, row)
        }
        Form::Json => append_json_sum(alloc, text, path, row, u64::from(sum)),
    }
}

/// Adds the line of the blocks that nothing takes.
fn append_untaken(
    alloc: Global,
    form: Form,
    text: &mut Vec<u8>,
    count: usize,
) -> Result<(), AllocError>
    ensures { OnOk result (text.new.items ≡ text.old.items ++ sum_line form None count) }
{
    match form {
        Form::Text => {
            append_number(text, count)?;
            text.extend_from_slice(FREE_END)
        }
        Form::Json => append_json_free_sum(alloc, text, count as u64),
    }
}

/// The first number, or none where none is left, and the others.
fn first_of(sums: &[u32]) -> (u32, &[u32])
    ensures first { result.0 ≡ slice_index sums.now 0 }
    ensures later { result.1.now ≡ drop 1 sums.now }
{
    match sums.split_first() {
        Some((&first, later)) => (first, later),
        None => (0, &[]),
    }
}

/// Sends a line for each row, with how many blocks it takes, and one for those that nothing takes.
fn send_sums<S: Sink>(
    alloc: Global,
    form: Form,
    rows: Rows<'_>,
    sums: &[u32],
    untaken: usize,
    out: &mut S,
) -> Result<(), Unsent>
    requires { S.failed out.old ≡ false }
    ensures sent { SendsListing (result_err result) (S.sent out.old) (S.sent out.new)
        (sum_lines form (rows_listed rows.entry) sums.now ++ sum_line form None untaken) }
    ensures failed { S.failed out.new ≡ blames_sink (result_err result) }
    ensures kept { S.kept out.new ≡ S.kept out.old }
{
    let mut text = Vec::new(alloc);
    let mut path = Vec::new(alloc);
    let mut left = sums;
    for row in rows {
        let (sum, later) = first_of(left);
        follow_row(&mut path, &row)?;
        append_sum(alloc, form, &mut text, sum, &path, &row)?;
        send_if_full(&mut text, out)?;
        left = later;
    }
    append_untaken(alloc, form, &mut text, untaken)?;
    send_rest(&mut text, out)
}

/// Sends how many blocks each path of a mounted image takes: a line for each, in the order of paths. It has the number of blocks that the
/// parts of its directory or the chain of its file have, with those of all that is below it; `d` or `f`; and the path, as a listing shows
/// it. A file in its entry takes none. The last line has the number of those that nothing uses, and a hyphen. In JSON a line is an object
/// with
/// `kind`, a path and `blocks`. `CannotWrite` where the sink fails, and a beginning went out, not all; `Memory` says only that a growth was
/// refused, and a beginning went out, perhaps all. At most 64 KiB of the text and one line wait at a time.
pub fn send_block_sums<S: Sink>(
    alloc: Global,
    form: Form,
    mounted: &Mounted,
    out: &mut S,
) -> Result<(), Unsent>
    requires mounted { (disk : Disk) × IsMountOf disk mounted.now }
    requires works { S.failed out.old ≡ false }
    ensures sent { SendsListing (result_err result) (S.sent out.old) (S.sent out.new)
        (block_sums form mounted.now.outline mounted.now.rows) }
    ensures failed { S.failed out.new ≡ blames_sink (result_err result) }
    ensures kept { S.kept out.new ≡ S.kept out.old }
{
    outlines_are_sound();
    let (users, depths) = users_with_depths(alloc, mounted)?;
    let counts = counts_of(alloc, &users, depths.len())?;
    let sums = sums_of(alloc, &depths, &counts)?;
    send_sums(alloc, form, mounted.rows(), &sums, untaken_of(&users), out)
}
