// Standard input and output, or any other reader and writer, as a source and a sink.
ghost use Rattle.std.specs.Prelude.{None};

use crate::sink::{ByteSink, WriteOutcome};
use crate::source::{ByteSource, ReadOutcome};
use std::io::{Read, Write};

/// A source over a reader, as standard input, which tells nothing of the reader's bytes.
#[derive(Drop)]
pub struct ReaderSource<R> {
    reader: R,
    faults: u64,
}

impl<R> ReaderSource<R> {
    /// The source over a reader that has not failed.
    pub fn new(reader: R) -> ReaderSource<R> {
        ReaderSource { reader, faults: 0 }
    }
}

impl<R: Read> ByteSource for ReaderSource<R> {
    ghost left = { λ _. None };

    ghost faults = { λ s. s.faults };

    fn read(&mut self, buffer: &mut [u8]) -> ReadOutcome {
        match self.reader.read(buffer) {
            Ok(0) => ReadOutcome::End,
            Ok(count) => ReadOutcome::Bytes(count),
            Err(_) => {
                self.faults = self.faults.saturating_add(1);
                ReadOutcome::Failed
            }
        }
    }
}

/// A sink over a writer, as standard output, which tells nothing of the writer's bytes.
#[derive(Drop)]
pub struct WriterSink<W> {
    writer: W,
    faults: u64,
}

impl<W> WriterSink<W> {
    /// The sink over a writer that has not failed.
    pub fn new(writer: W) -> WriterSink<W> {
        WriterSink { writer, faults: 0 }
    }
}

impl<W: Write> ByteSink for WriterSink<W> {
    ghost written = { λ _. None };

    ghost faults = { λ s. s.faults };

    /// A writer that takes nothing of a piece that isn't empty has failed.
    fn write(&mut self, piece: &[u8]) -> WriteOutcome {
        match self.writer.write(piece) {
            Ok(0) if !piece.is_empty() => {
                self.faults = self.faults.saturating_add(1);
                WriteOutcome::Failed
            }
            Ok(count) => WriteOutcome::Took(count),
            Err(_) => {
                self.faults = self.faults.saturating_add(1);
                WriteOutcome::Failed
            }
        }
    }
}
