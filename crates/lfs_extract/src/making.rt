//! What a host makes of a row.

ghost use Rattle.std.specs.Prelude.{◌≡◌, ◌⊎◌, [], ◌∷◌, false, not, List, ℕ, Option, OnErr};
ghost use Rattle.lfs_meta.specs.Attribute.{Attributes};
ghost use Rattle.lfs_fs.specs.RowHeld.{row_body_held};
ghost use Rattle.lfs_fs.specs.RowShown.{HasBlocks, shown_node};
ghost use Rattle.lfs_sink.specs.Send.{Sends};
ghost use Rattle.lfs_extract.specs.Making.{held_bytes};
ghost use Rattle.lfs_host.specs.HostCall.{EndingFile, FillingFile};
ghost use Rattle.lfs_host.specs.NewFolder.{FileMade, Made, Makes, bytes_filled, made_before};
ghost use Rattle.lfs_host.specs.Scene.{HasRefused, HasRefusedMade, KeepsFiles};
ghost use Rattle.lfs_extract.specs.Extracted.{MakesOne, made_node};

use crate::file_sink::FileSink;
use lfs_block::Blocks;
use lfs_file::send_blocks;
use lfs_fs::{Row, RowBody};
use lfs_host::{HostFault, NewFolder};
use lfs_sink::{Sink, send};

/// Sends the contents of a row, slice by slice: `true` where they went out, `false` where the sink failed after a beginning of them.
fn send_contents<B: Blocks, S: Sink>(disk: &B, body: &RowBody<'_>, out: &mut S) -> bool
    requires blocks { HasBlocks (B.disk disk.now) (row_body_held body.now) }
    requires works { S.failed out.old ≡ false }
    ensures sent { Sends result (S.sent out.old) (S.sent out.new) (held_bytes (B.disk disk.now) (row_body_held body.now)) }
    ensures failed { S.failed out.new ≡ not result }
    ensures kept { S.kept out.new ≡ S.kept out.old }
{
    match body {
        RowBody::Inline(bytes) => send(out, bytes),
        RowBody::Chain { blocks, size } => send_blocks(disk, blocks, *size, out),
        RowBody::Directory(..) => true,
    }
}

/// Writes the contents of a row to the file that is being made: `true` where they were written.
fn fill_file<B: Blocks, F: NewFolder>(disk: &B, body: &RowBody<'_>, folder: &mut F) -> bool
    requires blocks { HasBlocks (B.disk disk.now) (row_body_held body.now) }
    ensures filled { Sends result (bytes_filled (F.known folder.old).made) (bytes_filled (F.known folder.new).made)
        (held_bytes (B.disk disk.now) (row_body_held body.now)) }
    ensures made { made_before (F.known folder.new).made ≡ made_before (F.known folder.old).made }
    ensures blamed { result ≡ false → HasRefused (F.known folder.new) FillingFile }
    ensures kept { KeepsFiles (F.known folder.old) (F.known folder.new) }
{
    send_contents(disk, body, &mut FileSink::new(folder))
}

/// Writes the contents that a row's body has, none if it is a directory's, to the file that was begun under this name, and ends it.
/// Contents are written slice by slice. If the host refuses to write to the file or to end it, the file has a beginning of its contents.
pub fn write_file<B: Blocks, F: NewFolder>(
    disk: &B,
    body: &RowBody<'_>,
    name: &str,
    folder: &mut F,
) -> Result<(), HostFault>
    requires blocks { HasBlocks (B.disk disk.now) (row_body_held body.now) }
    ensures made { (before : Option (List Made)) → Makes before (F.known folder.old).made (FileMade name.now [] ∷ [])
        → MakesOne result before (F.known folder.new).made (FileMade name.now (held_bytes (B.disk disk.now) (row_body_held body.now))) }
    ensures blamed { OnErr result (HasRefused (F.known folder.new) FillingFile ⊎ HasRefused (F.known folder.new) (EndingFile name.now)) }
    ensures kept { KeepsFiles (F.known folder.old) (F.known folder.new) }
{
    if !fill_file(disk, body, folder) {
        return Err(HostFault);
    }
    folder.end_file(name)
}

/// Makes a file of a name with the contents that a row's body has.
fn make_file<B: Blocks, F: NewFolder>(
    disk: &B,
    body: &RowBody<'_>,
    name: &str,
    folder: &mut F,
) -> Result<(), HostFault>
    requires blocks { HasBlocks (B.disk disk.now) (row_body_held body.now) }
    ensures made { MakesOne result (F.known folder.old).made (F.known folder.new).made
        (FileMade name.now (held_bytes (B.disk disk.now) (row_body_held body.now))) }
    ensures blamed { OnErr result (HasRefusedMade (F.known folder.new) (FileMade name.now (held_bytes (B.disk disk.now) (row_body_held body.now)))) }
    ensures kept { KeepsFiles (F.known folder.old) (F.known folder.new) }
{
    folder.begin_file(name)?;
    write_file(disk, body, name, folder)
}

/// Makes what a row shows, under a name: a folder, or a file with its contents.
pub(crate) fn make_row<B: Blocks, F: NewFolder>(
    disk: &B,
    row: &Row<'_>,
    name: &str,
    folder: &mut F,
) -> Result<(), HostFault>
    requires blocks { HasBlocks (B.disk disk.now) row.now.entry.body }
    ensures made { MakesOne result (F.known folder.old).made (F.known folder.new).made (made_node name.now (shown_node (B.disk disk.now) row.now.entry)) }
    ensures blamed { OnErr result (HasRefusedMade (F.known folder.new) (made_node name.now (shown_node (B.disk disk.now) row.now.entry))) }
    ensures kept { KeepsFiles (F.known folder.old) (F.known folder.new) }
{
    match &row.body {
        RowBody::Directory(..) => {
            folder.make_folder(name)?;
            Ok(())
        }
        body => make_file(disk, body, name, folder),
    }
}
