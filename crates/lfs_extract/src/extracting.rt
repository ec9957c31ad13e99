//! A folder of a host, made of rows.

ghost use Rattle.std.specs.Prelude.{◌≡◌, ◌≢◌, All, IfErr, MatchResult};
ghost use Rattle.std.specs.Result.{result_err};
ghost use Rattle.lfs_fs.specs.Listed.{rows_listed};
ghost use Rattle.lfs_fs.specs.Mounted.{IsMountOf};
ghost use Rattle.lfs_fs.specs.RowShown.{HasBlocks};
ghost use Rattle.lfs_host.specs.NewFolder.{Makes};
ghost use Rattle.lfs_host.specs.Scene.{KeepsFiles};
ghost use Rattle.lfs_listing.specs.Below.{names};
ghost use Rattle.lfs_extract.specs.Extracted.{Extracts, HasRefusedOne, HaveTexts, JudgesNames, MakesFront, all_made};
ghost use Rattle.lfs_extract.specs.RowsBelow.{rows_below};
ghost use Rattle.lfs_extract.specs.TreeMade.{AreOfTree};
ghost use Rattle.lfs_extract.specs.declared.extract_fault.ExtractFault.TheVariants.{CannotWrite, HostName};

use crate::extract_fault::ExtractFault;
use crate::host_path::{follow_rest, host_name};
use crate::making::make_row;
use crate::name_texts::have_host_texts;
use crate::shared_prefix::SharedPrefix;
use lfs_block::Blocks;
use lfs_fs::{Mounted, Rows, outlines_are_sound, rows_show_the_tree};
use lfs_host::NewFolder;
use std::alloc::Global;

/// Makes what rows at a path and below it show, one after another.
fn make_rows<B: Blocks, F: NewFolder>(
    alloc: Global,
    disk: &B,
    rows: Rows<'_>,
    at: &[&[u8]],
    dir: &str,
    folder: &mut F,
) -> Result<(), ExtractFault>
    requires blocks { All (λ r. HasBlocks (B.disk disk.now) r.entry.body) (rows_listed rows) }
    requires texts { HaveTexts (rows_below (names at.now) (rows_listed rows)) }
    ensures made { MatchResult result
        (λ _. Makes (F.known folder.old).made (F.known folder.new).made
        (all_made (B.disk disk.now) dir.now (rows_below (names at.now) (rows_listed rows.entry))))
        (λ fault. (fault ≢ HostName) × MakesFront (F.known folder.old).made (F.known folder.new).made
        (all_made (B.disk disk.now) dir.now (rows_below (names at.now) (rows_listed rows.entry)))) }
    ensures blamed { IfErr result (λ fault. fault ≡ CannotWrite
        → HasRefusedOne (F.known folder.new) (all_made (B.disk disk.now) dir.now (rows_below (names at.now) (rows_listed rows.entry)))) }
    ensures kept { KeepsFiles (F.known folder.old) (F.known folder.new) }
{
    let mut prefix = SharedPrefix::new();
    let mut rest = Vec::new(alloc);
    for row in rows {
        prefix = prefix.behind(at, &row);
        if !prefix.is_below(at) {
            continue;
        }
        follow_rest(&mut rest, prefix.more(at), row.name)?;
        let name = host_name(alloc, dir, &rest)?;
        make_row(disk, &row, name.as_str(), folder)?;
    }
    Ok(())
}

/// Makes a folder of a host out of what stands in a mounted image at a path and below it: for each row that is there, in their order, a
/// folder or a file with the row's contents, without its attributes, under the name `dir` with a slash before each name that is left of the
/// row's path. So what stands at the path becomes `dir`, each folder is made before what is in it, and nothing is made outside `dir`, since
/// no name of an image holds a slash or is `.` or `..`. Contents are written slice by slice, and a name waits at a time.
///
/// The names that are left are looked at first: `HostName` where one isn't UTF-8 or holds a zero byte, and nothing is made. `CannotWrite`
/// where the host refuses to make a folder or a file, or to write to one: then all rows before this one are made, and a file that was begun
/// may be left with a beginning of its contents. `Memory` says only that a growth was refused, and some of the first rows are made.
pub fn extract_rows<B: Blocks, F: NewFolder>(
    alloc: Global,
    disk: &B,
    mounted: &Mounted,
    at: &[&[u8]],
    dir: &str,
    folder: &mut F,
) -> Result<(), ExtractFault>
    requires mounted { IsMountOf (B.disk disk.now) mounted.now }
    ensures made { Extracts (result_err result) (F.known folder.old).made (F.known folder.new).made
        (all_made (B.disk disk.now) dir.now (rows_below (names at.now) mounted.now.rows)) }
    ensures tree { AreOfTree (B.disk disk.now) (names at.now) dir.now
        (all_made (B.disk disk.now) dir.now (rows_below (names at.now) mounted.now.rows)) }
    ensures names { JudgesNames (result_err result) (rows_below (names at.now) mounted.now.rows) }
    ensures blamed { IfErr result (λ fault. fault ≡ CannotWrite
        → HasRefusedOne (F.known folder.new) (all_made (B.disk disk.now) dir.now (rows_below (names at.now) mounted.now.rows))) }
    ensures kept { KeepsFiles (F.known folder.old) (F.known folder.new) }
{
    rows_show_the_tree();
    outlines_are_sound();
    let _within_limits = disk.size();
    if !have_host_texts(mounted.rows(), at) {
        return Err(ExtractFault::HostName);
    }
    make_rows(alloc, disk, mounted.rows(), at, dir, folder)
}
