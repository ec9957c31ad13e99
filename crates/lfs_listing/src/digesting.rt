//! Sending a listing with the digests of files' contents.

ghost use Rattle.std.specs.Prelude.{◌≡◌, false};
ghost use Rattle.std.specs.Result.{result_err};
ghost use Rattle.lfs_fs.specs.Listed.{rows_listed};
ghost use Rattle.lfs_fs.specs.Mounted.{IsMountOf};
ghost use Rattle.lfs_listing.specs.Below.{digests_at, names};
ghost use Rattle.lfs_listing.specs.Comparing.{AreComplete};
ghost use Rattle.lfs_listing.specs.Unsent.{SendsListing, blames_sink};

use crate::buffer::{send_if_full, send_rest};
use crate::differing::{MountedImage, complete_rows};
use crate::digested_lines::append_digested_row;
use crate::unsent::Unsent;
use lfs_block::Blocks;
use lfs_fs::Rows;
use lfs_json::Form;
use lfs_sink::Sink;
use std::alloc::Global;

/// Sends the listing of rows whose contents can be read on a disk.
fn send_rows<A: Blocks, S: Sink>(
    alloc: Global,
    form: Form,
    disk: &A,
    rows: Rows<'_>,
    at: &[&[u8]],
    out: &mut S,
) -> Result<(), Unsent>
    requires complete { AreComplete (A.disk disk.now) (rows_listed rows) }
    requires works { S.failed out.old ≡ false }
    ensures sent { SendsListing (result_err result) (S.sent out.old) (S.sent out.new)
        (digests_at form (A.disk disk.now) (names at.now) (rows_listed rows.entry)) }
    ensures failed { S.failed out.new ≡ blames_sink (result_err result) }
    ensures kept { S.kept out.new ≡ S.kept out.old }
{
    let mut text = Vec::new(alloc);
    let mut path = Vec::new(alloc);
    for row in rows {
        append_digested_row(alloc, form, disk, &mut text, &mut path, at, &row)?;
        send_if_full(&mut text, out)?;
    }
    send_rest(&mut text, out)
}

/// Sends what `send_listing` sends of a mounted image, and of each file the SHA-256 of its contents: a line with `#` and its digits behind
/// those of the row, or in JSON the member `sha256`. Each file's contents are read.
pub fn send_digests<A: Blocks, S: Sink>(
    alloc: Global,
    form: Form,
    image: &MountedImage<'_, A>,
    at: &[&[u8]],
    out: &mut S,
) -> Result<(), Unsent>
    requires mounted { IsMountOf (A.disk image.now.disk.now) image.now.mounted.now }
    requires works { S.failed out.old ≡ false }
    ensures sent { SendsListing (result_err result) (S.sent out.old) (S.sent out.new)
        (digests_at form (A.disk image.now.disk.now) (names at.now) image.now.mounted.now.rows) }
    ensures failed { S.failed out.new ≡ blames_sink (result_err result) }
    ensures kept { S.kept out.new ≡ S.kept out.old }
{
    send_rows(alloc, form, image.disk, complete_rows(image), at, out)
}
