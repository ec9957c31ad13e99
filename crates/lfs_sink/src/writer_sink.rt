//! A sink over a writer.

ghost use Rattle.std.specs.Prelude.{◌≡◌, ◌<◌, ◌≤◌, ◌||◌, true, false, is_none, is_some, if◌then◌else◌, length, take, IfSome, MatchOption};
ghost use Rattle.std.specs.Io.KnownBytes.{Appends, Keeps};

use crate::sink::Sink;
use crate::writing::write_some;
use std::io::{self, Write};

/// A sink over one of std's writers. A write that is interrupted is tried again. The sink fails where the writer fails
/// or takes no byte, and is told why.
#[derive(Drop)]
pub struct Out<W> {
    writer: W,
    has_failed: bool,
    /// What the writer said when it failed last.
    said: Option<io::Error>,
}

impl<W: Write> Out<W> {
    /// A sink over `writer`, which has not failed.
    pub fn new(writer: W) -> Out<W>
        ensures sent { ⟦<Out<W> as Sink>⟧.sent result ≡ W.contents writer }
        ensures failed { ⟦<Out<W> as Sink>⟧.failed result ≡ false }
        ensures told { ⟦<Out<W> as Sink>⟧.told result ≡ false }
    {
        Out {
            writer,
            has_failed: false,
            said: None,
        }
    }

    /// Whether it has failed.
    pub fn has_failed(&self) -> bool
        ensures { result ≡ ⟦<Out<W> as Sink>⟧.failed self.now }
    {
        self.has_failed
    }

    /// What the writer said when it failed last, in a write or a flush.
    pub fn error(&self) -> Option<&io::Error>
        ensures { is_some result ≡ ⟦<Out<W> as Sink>⟧.told self.now }
    {
        self.said.as_ref()
    }

    /// Flushes the writer, and answers whether that went well.
    pub fn flush(&mut self) -> bool
        ensures failed { ⟦<Out<W> as Sink>⟧.failed self.new ≡ ⟦<Out<W> as Sink>⟧.failed self.old }
        ensures sent { Keeps (⟦<Out<W> as Sink>⟧.sent self.old) (⟦<Out<W> as Sink>⟧.sent self.new) }
        ensures told { ⟦<Out<W> as Sink>⟧.told self.new ≡ (if result then ⟦<Out<W> as Sink>⟧.told self.old else true) }
    {
        match self.writer.flush() {
            Ok(()) => true,
            Err(error) => {
                self.said = Some(error);
                false
            }
        }
    }
}

impl<W: Write> Sink for Out<W> {
    ghost sent = { λ out. W.contents out.writer };

    ghost failed = { λ out. out.has_failed };

    ghost told = { λ out. is_some out.said };

    ghost kept = { λ _. tt };

    fn write(&mut self, bytes: &[u8]) -> Option<usize>
        requires works { ⟦<Out<W> as Sink>⟧.failed self.old ≡ false }
        requires some { 0 < length bytes.now }
        ensures count { IfSome result (λ n. (0 < n) × (n ≤ length bytes.now)) }
        ensures sent { MatchOption result (Keeps (⟦<Out<W> as Sink>⟧.sent self.old) (⟦<Out<W> as Sink>⟧.sent self.new))
            (λ n. Appends (⟦<Out<W> as Sink>⟧.sent self.old) (⟦<Out<W> as Sink>⟧.sent self.new) (take n bytes.now)) }
        ensures failed { ⟦<Out<W> as Sink>⟧.failed self.new ≡ is_none result }
        ensures kept { ⟦<Out<W> as Sink>⟧.kept self.new ≡ ⟦<Out<W> as Sink>⟧.kept self.old }
        ensures told { ⟦<Out<W> as Sink>⟧.told self.new ≡ (is_none result || ⟦<Out<W> as Sink>⟧.told self.old) }
    {
        match write_some(&mut self.writer, bytes) {
            Ok(count) => Some(count),
            Err(error) => {
                self.said = Some(error);
                self.has_failed = true;
                None
            }
        }
    }
}
