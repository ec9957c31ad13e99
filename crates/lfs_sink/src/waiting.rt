//! Bytes that wait until there are many, so that few calls write them.

ghost use Rattle.std.specs.Prelude.{◌≡◌, ◌<◌, ◌≤◌, [], length, IfOk, OnOk};
ghost use Rattle.std.specs.Io.KnownBytes.{Appends, Keeps, WriteAppends, append_known};

use crate::sink::Sink;
use crate::text::Text;
use crate::writing::write_some;
use std::alloc::Global;
use std::io::{self, Write};

/// How many bytes wait at most.
const MOST: usize = 65_536;

/// Writes what waits, all of it. Where that fails a beginning of it may be written, and the rest waits still.
pub fn write_rest<W: Write>(waiting: &mut Vec<u8>, writer: &mut W) -> io::Result<()>
    ensures complete { Keeps (append_known (W.contents writer.old) waiting.old.items)
        (append_known (W.contents writer.new) waiting.new.items) }
    ensures empty { OnOk result (waiting.new.items ≡ []) }
{
    'rest: while !waiting.is_empty() {
        let count = write_some(writer, waiting)?;
        waiting.drain(..count);
    }
    Ok(())
}

/// Lets bytes wait behind those that do, and answers how many, at least one. What waited is written before where they are too many
/// together, and the first of them where there is no memory for them. Where it fails none of them waits or is written.
pub fn write_later<W: Write>(
    bytes: &[u8],
    waiting: &mut Vec<u8>,
    writer: &mut W,
) -> io::Result<usize>
    requires some { 0 < length bytes.now }
    ensures count { IfOk result (λ n. (0 < n) × (n ≤ length bytes.now)) }
    ensures sent { WriteAppends (append_known (W.contents writer.old) waiting.old.items)
        (append_known (W.contents writer.new) waiting.new.items) result bytes.now }
{
    if bytes.len() > MOST.saturating_sub(waiting.len()) {
        write_rest(waiting, writer)?;
    }
    if bytes.len() <= MOST && waiting.extend_from_slice(bytes).is_ok() {
        return Ok(bytes.len());
    }
    write_rest(waiting, writer)?;
    write_some(writer, bytes)
}

/// A writer as a sink, before which bytes wait until there are many: what went out is what the writer holds, and then what waits. It
/// has failed once the writer has.
#[derive(Drop)]
struct WaitingSink<'a, W> {
    waiting: &'a mut Vec<u8>,
    writer: &'a mut W,
    /// What the writer said when it failed.
    said: &'a mut Option<io::Error>,
}

impl<W: Write> Sink for WaitingSink<'_, W> {
    ghost use Rattle.std.specs.Prelude.{is_some};
    ghost use base.Fml.{GName};

    ghost sent = { λ sink. append_known (W.contents sink.writer.now) sink.waiting.now.items };

    ghost failed = { λ sink. is_some sink.said.now };

    ghost Kept = { GName × GName × GName };

    ghost kept = { λ sink. (sink.waiting.ghost_name, sink.writer.ghost_name, sink.said.ghost_name) };

    fn write(&mut self, bytes: &[u8]) -> Option<usize> {
        match write_later(bytes, self.waiting, self.writer) {
            Ok(count) => Some(count),
            Err(error) => {
                *self.said = Some(error);
                None
            }
        }
    }
}

/// Writes a text, all of it. Where that fails a beginning of it may be written.
pub fn write_text<T: Text, W: Write>(alloc: Global, text: &T, writer: &mut W) -> io::Result<()>
    ensures written { OnOk result (Appends (W.contents writer.old) (W.contents writer.new) (T.bytes text.now)) }
{
    let mut waiting = Vec::new(alloc);
    let mut said = None;
    text.send_to(&mut WaitingSink {
        waiting: &mut waiting,
        writer,
        said: &mut said,
    });
    match said {
        Some(error) => Err(error),
        None => write_rest(&mut waiting, writer),
    }
}
