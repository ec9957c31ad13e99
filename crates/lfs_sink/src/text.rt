//! What can be sent.

ghost use Rattle.std.specs.Prelude.{◌≡◌, ℕ, List, false, not};
ghost use Rattle.lfs_sink.specs.Send.{Sends};

use crate::sending::send;
use crate::sink::Sink;

/// What can be sent. Its meaning is its bytes, which need not stand together in memory.
pub trait Text {
    ghost bytes: { Self → List ℕ };

    /// Sends all bytes: `true` where they went out, `false` where the sink failed after a beginning of them.
    fn send_to<S: Sink>(&self, out: &mut S) -> bool
        requires works { S.failed out.old ≡ false }
        ensures sent { Sends result (S.sent out.old) (S.sent out.new) (bytes self.now) }
        ensures failed { S.failed out.new ≡ not result }
        ensures kept { S.kept out.new ≡ S.kept out.old };
}

impl Text for Vec<u8> {
    ghost bytes = { λ text. text.items };

    fn send_to<S: Sink>(&self, out: &mut S) -> bool {
        send(out, self)
    }
}
