//! The contents of a file, sent to a sink.

ghost use Rattle.std.specs.Prelude.{◌≡◌, ◌⊎◌, false, List, ℕ, MatchResult, IfErr};
ghost use Rattle.std.specs.Io.KnownBytes.{Keeps};
ghost use Rattle.lfs_meta.specs.Attribute.{Attributes};
ghost use Rattle.lfs_fs.specs.Mounted.{IsMountOf};
ghost use Rattle.lfs_fs.specs.OutlineHeld.{outline_body_held};
ghost use Rattle.lfs_fs.specs.RowShown.{HasBlocks, shown_body};
ghost use Rattle.lfs_fs.specs.Tree.{Dir, File};
ghost use Rattle.lfs_command.specs.declared.refusal.Refusal.TheVariants.{IsADirectory, Memory};
ghost use Rattle.lfs_sink.specs.Send.{Sends};
ghost use Rattle.lfs_step.specs.Contents.{IsContents, RefusesContents};
ghost use Rattle.lfs_step.specs.Sent.{SendsContents, has_failed};

use lfs_block::Blocks;
use lfs_command::{Refusal, names_of};
use lfs_draft::entry_there;
use lfs_file::send_blocks;
use lfs_fs::{Mounted, OutlineBody, outlines_are_sound, rows_show_the_tree};
use lfs_law::outlines_are_judged_alike;
use lfs_sink::{Sink, send};
use std::alloc::Global;

/// Sends the contents of the file whose body this is: `IsADirectory` where it is a directory's.
fn send_body<B: Blocks, S: Sink>(disk: &B, body: &OutlineBody, out: &mut S) -> Result<bool, Refusal>
    requires blocks { HasBlocks (B.disk disk.now) (outline_body_held body.now) }
    requires works { S.failed out.old ≡ false }
    ensures sent { MatchResult result
        (λ complete. (bytes : List ℕ) × ((a : Attributes) → shown_body (B.disk disk.now) (outline_body_held body.now) a ≡ File bytes a)
        × Sends complete (S.sent out.old) (S.sent out.new) bytes)
        (λ _. Keeps (S.sent out.old) (S.sent out.new)) }
    ensures refused { IfErr result (λ refusal. (refusal ≡ Memory)
        ⊎ ((refusal ≡ IsADirectory) × ((a : Attributes) → shown_body (B.disk disk.now) (outline_body_held body.now) a ≡ Dir a))) }
    ensures failed { S.failed out.new ≡ has_failed result }
    ensures kept { S.kept out.new ≡ S.kept out.old }
{
    match body {
        OutlineBody::Inline(bytes) => Ok(send(out, bytes)),
        OutlineBody::Chain { blocks, size } => Ok(send_blocks(disk, blocks, *size, out)),
        OutlineBody::Directory(..) => Err(Refusal::IsADirectory),
    }
}

/// Sends the contents of the file at a path of a mounted image, slice by slice: `true` where they went out, `false` where the sink failed
/// after a beginning of them. `BadPath` where the text spells no path; else the first of these that holds: a front of the path isn't
/// there (`NotFound`) or is a file (`NotADirectory`); nothing is at the path (`NotFound`); a directory is (`IsADirectory`). `Memory` says
/// only that a growth was refused. Nothing goes out with a refusal.
pub fn send_file<B: Blocks, S: Sink>(
    alloc: Global,
    disk: &B,
    mounted: &Mounted,
    path: &[u8],
    out: &mut S,
) -> Result<bool, Refusal>
    requires mounted { IsMountOf (B.disk disk.now) mounted.now }
    requires works { S.failed out.old ≡ false }
    ensures sent { SendsContents result (B.disk disk.now) path.now (S.sent out.old) (S.sent out.new) }
    ensures refused { IfErr result (λ refusal. RefusesContents (B.disk disk.now) path.now refusal) }
    ensures failed { S.failed out.new ≡ has_failed result }
    ensures kept { S.kept out.new ≡ S.kept out.old }
{
    rows_show_the_tree();
    outlines_are_sound();
    outlines_are_judged_alike();
    let _within_limits = disk.size();
    let names = names_of(alloc, path)?;
    if names.is_empty() {
        return Err(Refusal::IsADirectory);
    }
    let entry = entry_there(mounted.outline(), &names)?;
    send_body(disk, &entry.body, out)
}
