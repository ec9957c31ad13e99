//! The contents of a file, sent to a sink.

ghost use Rattle.std.specs.Prelude.{◌≡◌, ◌<◌, ◌≤◌, All, false, not, length};
ghost use Rattle.lfs_file.specs.Content.{content};
ghost use Rattle.lfs_sink.specs.Send.{Sends};

use crate::file_slices::read_file;
use lfs_block::Blocks;
use lfs_sink::{Sink, send};

/// Sends the contents of a file of `size` bytes in these blocks, slice by slice: `true` where they went out, `false` where the sink
/// failed after a beginning of them.
///
/// Source: DESIGN.md, "CTZ skip-lists".
pub fn send_blocks<B: Blocks, S: Sink>(disk: &B, blocks: &[u32], size: u32, out: &mut S) -> bool
    requires below { All (λ b. b < (B.disk disk.now).count) blocks.now }
    requires few { length blocks.now ≤ (B.disk disk.now).count }
    requires works { S.failed out.old ≡ false }
    ensures sent { Sends result (S.sent out.old) (S.sent out.new) (content (B.disk disk.now) size blocks.now) }
    ensures failed { S.failed out.new ≡ not result }
    ensures kept { S.kept out.new ≡ S.kept out.old }
{
    for slice in read_file(disk, blocks, size) {
        if !send(out, slice) {
            return false;
        }
    }
    true
}
