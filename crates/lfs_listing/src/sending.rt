//! Sending a listing.

ghost use Rattle.std.specs.Prelude.{◌≡◌, false};
ghost use Rattle.std.specs.Result.{result_err};
ghost use Rattle.lfs_fs.specs.Listed.{rows_listed};
ghost use Rattle.lfs_listing.specs.Below.{listing_at, names};
ghost use Rattle.lfs_listing.specs.Unsent.{SendsListing, blames_sink};

use crate::buffer::{send_if_full, send_rest};
use crate::lines::append_row;
use crate::unsent::Unsent;
use lfs_fs::Rows;
use lfs_json::Form;
use lfs_sink::Sink;
use std::alloc::Global;

/// Sends the listing of the rows that are at a path or below: for each a line with `d` for a directory or `f` for a file, its size in bytes
/// at the right of ten places, or `-` for a directory, and its path, in which `\x` and two digits stand for each byte that isn't printable
/// ASCII or is a backslash; then for each of its attributes a line with `@`, the kind and the value in hexadecimal digits. In JSON it is a
/// line as `append_json_row` adds it.
/// `CannotWrite` where the sink fails, and a beginning went out, not all; `Memory` says only that a growth was refused, and a beginning
/// went out, perhaps all. At most 64 KiB of the text and the lines of one row wait at a time.
pub fn send_listing<S: Sink>(
    alloc: Global,
    form: Form,
    rows: Rows<'_>,
    at: &[&[u8]],
    out: &mut S,
) -> Result<(), Unsent>
    requires { S.failed out.old ≡ false }
    ensures sent { SendsListing (result_err result) (S.sent out.old) (S.sent out.new)
        (listing_at form (names at.now) (rows_listed rows.entry)) }
    ensures failed { S.failed out.new ≡ blames_sink (result_err result) }
    ensures kept { S.kept out.new ≡ S.kept out.old }
{
    let mut text = Vec::new(alloc);
    let mut path = Vec::new(alloc);
    for row in rows {
        append_row(alloc, form, &mut text, &mut path, at, &row)?;
        send_if_full(&mut text, out)?;
    }
    send_rest(&mut text, out)
}
