//! What goes to standard output.

ghost use Rattle.std.specs.Prelude.{◌≡◌, IfErr, MatchResult, OnOk};
ghost use Rattle.std.specs.Io.KnownBytes.{Appends};
ghost use Rattle.lfs_request.specs.declared.fault.Fault.TheVariants.{CannotWrite};
ghost use Rattle.lfs_host.specs.HostCall.{Flushing};
ghost use Rattle.lfs_host.specs.Scene.{HasRefused, KeepsAll, KeepsInput};
ghost use Rattle.lfs_exchange.specs.Printing.{HasRefusedOutput, IsFlushed, PrintsBeginning};

use crate::output::Output;
use lfs_host::Host;
use lfs_request::Fault;
use lfs_sink::send;

/// Writes a text to standard output, and hands it on. Where that is refused, a beginning of it went out, or all of it that
/// wasn't handed on.
pub fn print<H: Host>(host: &mut H, text: &str) -> Result<(), Fault>
    ensures printed { MatchResult result (λ _. Appends (H.known host.old).printed (H.known host.new).printed text.now)
        (λ _. PrintsBeginning (H.known host.old).printed (H.known host.new).printed text.now) }
    ensures flushed { OnOk result (IsFlushed (H.known host.new)) }
    ensures refused { IfErr result (λ fault. (fault ≡ CannotWrite) × HasRefusedOutput (H.known host.new)) }
    ensures kept { KeepsInput (H.known host.old) (H.known host.new) }
{
    if !send(&mut Output::new(host), text.as_bytes()) {
        return Err(Fault::CannotWrite);
    }
    flush(host)
}

/// Hands on what was printed.
pub fn flush<H: Host>(host: &mut H) -> Result<(), Fault>
    ensures flushed { OnOk result (IsFlushed (H.known host.new)) }
    ensures refused { IfErr result (λ fault. (fault ≡ CannotWrite) × HasRefused (H.known host.new) Flushing) }
    ensures kept { KeepsAll (H.known host.old) (H.known host.new) }
{
    match host.flush() {
        Ok(()) => Ok(()),
        Err(_) => Err(Fault::CannotWrite),
    }
}
