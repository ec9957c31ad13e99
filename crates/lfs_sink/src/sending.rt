//! Sending a whole text.

ghost use Rattle.std.specs.Prelude.{◌≡◌, false, not};
ghost use Rattle.lfs_sink.specs.Send.{Sends};

use crate::sink::Sink;

/// Sends all of `text`: `true` where it went out, `false` where the sink failed after a beginning of it.
pub fn send<S: Sink>(out: &mut S, text: &[u8]) -> bool
    requires { S.failed out.old ≡ false }
    ensures sent { Sends result (S.sent out.old) (S.sent out.new) text.now }
    ensures failed { S.failed out.new ≡ not result }
    ensures kept { S.kept out.new ≡ S.kept out.old }
{
    let mut rest = text;
    'rest: while !rest.is_empty() {
        match out.write(rest) {
            Some(count) => rest = rest.split_at(count).1,
            None => return false,
        }
    }
    true
}
