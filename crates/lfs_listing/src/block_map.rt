//! Sending which block holds what.

ghost use Rattle.std.specs.Prelude.{◌≡◌, false};
ghost use Rattle.std.specs.Result.{result_err};
ghost use Rattle.lfs_block.specs.Disk.{Disk};
ghost use Rattle.lfs_fs.specs.Mounted.{IsMountOf};
ghost use Rattle.lfs_listing.specs.BlockMap.{block_map};
ghost use Rattle.lfs_listing.specs.Unsent.{SendsListing, blames_sink};

use crate::gathering::users_with_parts;
use crate::runs::send_runs;
use crate::unsent::Unsent;
use lfs_fs::{Mounted, outlines_are_sound};
use lfs_json::Form;
use lfs_sink::Sink;
use std::alloc::Global;

/// Sends which block of a mounted image holds what: a line for each run of blocks of one user, from block 0 on. It has the number of the
/// first and that of the last one with a hyphen between, or one number; `d` for the pairs of a directory's parts or `f` for the chain of
/// a file; and its path, as a listing shows it. Blocks that nothing uses have a hyphen in place of both. In JSON it is an object with
/// `kind`, `directory`, `file` or `free`, a path, `first` and `last`. `CannotWrite` where the sink fails, and a beginning went out, not
/// all; `Memory` says only that a growth was refused, and a beginning went out, perhaps all. The paths of directories and of files in
/// chains are kept until their lines have gone out; of the lines at most 64 KiB and one more wait at a time.
pub fn send_block_map<S: Sink>(
    alloc: Global,
    form: Form,
    mounted: &Mounted,
    out: &mut S,
) -> Result<(), Unsent>
    requires mounted { (disk : Disk) × IsMountOf disk mounted.now }
    requires works { S.failed out.old ≡ false }
    ensures sent { SendsListing (result_err result) (S.sent out.old) (S.sent out.new)
        (block_map form mounted.now.outline mounted.now.rows) }
    ensures failed { S.failed out.new ≡ blames_sink (result_err result) }
    ensures kept { S.kept out.new ≡ S.kept out.old }
{
    outlines_are_sound();
    let (users, parts) = users_with_parts(alloc, form, mounted)?;
    send_runs(alloc, form, &users, &parts, out)
}
