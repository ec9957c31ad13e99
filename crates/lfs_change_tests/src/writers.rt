//! Writers that misbehave.

use lfs_sink::{Out, Sink, send};
use std::alloc::Global;
use std::io;
use std::io::{ErrorKind, Write};

/// How a writer answers a write.
#[derive(Clone, Copy)]
enum Reply {
    Takes(usize),
    Interrupts,
    Fails,
}

/// A writer that answers by a list, and then takes all.
#[derive(Drop)]
struct Scripted<'a> {
    replies: &'a [Reply],
    written: Vec<u8>,
}

impl Write for Scripted<'_> {
    fn write(&mut self, bytes: &[u8]) -> io::Result<usize> {
        let reply = match self.replies.split_first() {
            Some((reply, others)) => {
                self.replies = others;
                *reply
            }
            None => Reply::Takes(bytes.len()),
        };
        match reply {
            Reply::Takes(count) => {
                let count = count.min(bytes.len());
                self.written.extend_from_slice(&bytes[..count])?;
                Ok(count)
            }
            Reply::Interrupts => Err(io::Error::from(ErrorKind::Interrupted)),
            Reply::Fails => Err(io::Error::from(ErrorKind::StorageFull)),
        }
    }

    fn flush(&mut self) -> io::Result<()> {
        Err(io::Error::from(ErrorKind::StorageFull))
    }
}

/// What a writer answers, whether a text goes out whole by it, and what goes out.
type Row = ([Reply; 2], bool, &'static str);

const ROWS: [Row; 8] = [
    ([Reply::Takes(3), Reply::Takes(2)], true, "littlefs"),
    ([Reply::Takes(3), Reply::Takes(0)], false, "lit"),
    ([Reply::Takes(0), Reply::Takes(8)], false, ""),
    ([Reply::Fails, Reply::Takes(8)], false, ""),
    ([Reply::Takes(7), Reply::Fails], false, "littlef"),
    ([Reply::Interrupts, Reply::Interrupts], true, "littlefs"),
    ([Reply::Interrupts, Reply::Fails], false, ""),
    ([Reply::Takes(1), Reply::Interrupts], true, "littlefs"),
];

/// Whether a text goes out whole or not, as it should, and the sink says so and why; and whether the writer fails then where it is flushed.
fn goes_out(writer: &mut Scripted<'_>, complete: bool) -> bool {
    let mut out = Out::new(writer);
    send(&mut out, b"littlefs") == complete
        && out.has_failed() != complete
        && out.error().is_some() != complete
        && !out.flush()
        && out.error().is_some()
}

/// Whether a writer that answers so gets what it should.
fn is_written(alloc: Global, row: &Row) -> bool {
    let (replies, complete, text) = row;
    let mut writer = Scripted {
        replies,
        written: Vec::new(alloc),
    };
    goes_out(&mut writer, *complete) && writer.written.as_slice() == text.as_bytes()
}

#[test]
fn writers_that_misbehave(rt: HostRuntime) {
    for row in &ROWS {
        assert!(rt; is_written(rt.alloc(), row));
    }
}
