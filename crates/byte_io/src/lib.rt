//! Sources and sinks of bytes, and whole texts read from and written to them.
//!
//! What comes in is a source, what goes out is a sink: each may move few bytes at a time and may fail, and counts how
//! often it failed. `read_all` takes a source to its end, and `write_all` gives a sink a whole text. A source and a sink
//! in memory tell the bytes that they have, so that contracts above can speak of them; standard input and output tell
//! nothing.
#![tactic(auto)]

mod sink;
mod source;

// A whole text, in and out.
mod reading;
mod writing;

// What bytes come from and go to.
mod memory_sink;
mod memory_source;
mod standard;

pub use memory_sink::MemorySink;
pub use memory_source::MemorySource;
pub use reading::{MOST_BYTES, ReadRefusal, read_all};
pub use sink::{ByteSink, WriteOutcome};
pub use source::{ByteSource, ReadOutcome};
pub use standard::{ReaderSource, WriterSink};
pub use writing::{SinkFault, write_all};
