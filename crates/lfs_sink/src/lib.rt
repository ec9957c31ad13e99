//! Sinks: where text goes, and texts, which need not stand together in memory.
#![tactic(auto)]

mod memory_sink;
mod sending;
mod sink;
mod text;
mod waiting;
mod writer_sink;
mod writing;

pub use memory_sink::MemorySink;
pub use sending::send;
pub use sink::Sink;
pub use text::Text;
pub use waiting::{write_later, write_rest, write_text};
pub use writer_sink::Out;
