//! The text that has not gone out yet.

ghost use Rattle.std.specs.Prelude.{◌≡◌, ◌≤◌, [], false, length, OnOk, MatchResult, is_err};
ghost use Rattle.std.specs.Io.KnownBytes.{Appends};
ghost use Rattle.lfs_sink.specs.Send.{SendsBeginning};
ghost use Rattle.lfs_listing.specs.Buffer.{SendsFront};
ghost use Rattle.lfs_listing.specs.declared.unsent.Unsent.TheVariants.{CannotWrite};

use crate::unsent::Unsent;
use lfs_sink::{Sink, send};

/// How many bytes wait at most before they go out.
const FULL: usize = 65_536;

/// Sends what waits, and empties it.
pub(crate) fn send_rest<S: Sink>(text: &mut Vec<u8>, out: &mut S) -> Result<(), Unsent>
    requires { S.failed out.old ≡ false }
    ensures sent { MatchResult result (λ done. Appends (S.sent out.old) (S.sent out.new) text.old.items)
        (λ unsent. (unsent ≡ CannotWrite) × SendsBeginning (S.sent out.old) (S.sent out.new) text.old.items) }
    ensures empty { OnOk result (text.new.items ≡ []) }
    ensures failed { S.failed out.new ≡ is_err result }
    ensures kept { S.kept out.new ≡ S.kept out.old }
{
    if send(out, text) {
        text.clear();
        Ok(())
    } else {
        Err(Unsent::CannotWrite)
    }
}

/// Sends what waits where it is more than a full buffer, and empties it then.
pub(crate) fn send_if_full<S: Sink>(text: &mut Vec<u8>, out: &mut S) -> Result<(), Unsent>
    requires { S.failed out.old ≡ false }
    ensures sent { MatchResult result (λ done. SendsFront (S.sent out.old) (S.sent out.new) text.old.items text.new.items)
        (λ unsent. (unsent ≡ CannotWrite) × SendsBeginning (S.sent out.old) (S.sent out.new) text.old.items) }
    ensures few { OnOk result (length text.new.items ≤ FULL) }
    ensures failed { S.failed out.new ≡ is_err result }
    ensures kept { S.kept out.new ≡ S.kept out.old }
{
    if text.len() <= FULL {
        return Ok(());
    }
    send_rest(text, out)
}
