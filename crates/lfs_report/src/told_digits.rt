//! What is told of digits that spell nothing.

ghost use Rattle.std.specs.Prelude.{◌≡◌, Some};
ghost use Rattle.lfs_request.specs.Fault.{status_of};
ghost use Rattle.lfs_request.specs.declared.fault.Fault.TheVariants.{BadHex};

use crate::line::{Piece, report_pieces};
use lfs_exchange::report;
use lfs_host::Host;
use lfs_request::Fault;
use lfs_texts::Reason;

/// Tells that the digits of an attribute's kind or value spell nothing, and which word of a command they are; answers the status.
pub fn report_digits<'a, H: Host>(host: &mut H, command: &str, reason: Reason, word: &'a str) -> u8
    ensures status { result ≡ status_of (Some BadHex) }
    ensures kept { H.known host.new ≡ H.known host.old }
{
    let status = report(host, Fault::BadHex);
    report_pieces(
        host,
        command,
        &[
            Piece::Reason(reason),
            Piece::Text(": "),
            Piece::Bytes(word.as_bytes()),
        ],
    );
    status
}
