//! A text in memory.

use crate::sink::Sink;
use std::alloc::Global;

/// A text in memory, as a sink: it has failed once a growth was refused.
#[derive(Drop)]
pub struct MemorySink {
    /// The bytes that went out.
    pub bytes: Vec<u8>,
    /// Whether a growth was refused.
    pub has_failed: bool,
}

impl MemorySink {
    ghost use Rattle.std.specs.Prelude.{◌≡◌, [], false};

    /// An empty text.
    pub fn new(alloc: Global) -> MemorySink
        ensures empty { result.bytes.items ≡ [] }
        ensures works { result.has_failed ≡ false }
    {
        MemorySink {
            bytes: Vec::new(alloc),
            has_failed: false,
        }
    }
}

impl Sink for MemorySink {
    ghost use Rattle.std.specs.Prelude.{Some};

    ghost sent = { λ text. Some text.bytes.items };

    ghost failed = { λ text. text.has_failed };

    ghost kept = { λ _. tt };

    fn write(&mut self, bytes: &[u8]) -> Option<usize> {
        match self.bytes.extend_from_slice(bytes) {
            Ok(()) => Some(bytes.len()),
            Err(_) => {
                self.has_failed = true;
                None
            }
        }
    }
}
