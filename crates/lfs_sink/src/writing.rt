//! One write to a writer.

ghost use Rattle.std.specs.Prelude.{◌<◌, ◌≤◌, length, IfOk};
ghost use Rattle.std.specs.Io.KnownBytes.{WriteAppends};

use std::io::{self, ErrorKind, Write};

/// What is said of a writer that takes no byte, or is interrupted for ever.
fn takes_none() -> io::Error {
    io::Error::new(ErrorKind::WriteZero, "it takes no more bytes")
}

/// Writes the first of these bytes to one of std's writers, at least one, and answers how many, or what the writer said where it
/// took none. A write that is interrupted is tried again. Takes memory for nothing but an error.
pub(crate) fn write_some<W: Write>(writer: &mut W, bytes: &[u8]) -> io::Result<usize>
    requires some { 0 < length bytes.now }
    ensures count { IfOk result (λ n. (0 < n) × (n ≤ length bytes.now)) }
    ensures sent { WriteAppends (W.contents writer.old) (W.contents writer.new) result bytes.now }
{
    'tries: for _ in 0..u64::MAX {
        match writer.write(bytes) {
            Ok(0) => return Err(takes_none()),
            Ok(count) => return Ok(count),
            Err(error) => {
                if error.kind() != ErrorKind::Interrupted {
                    return Err(error);
                }
            }
        }
    }
    Err(takes_none())
}
