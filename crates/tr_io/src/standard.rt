//! Sources and sinks over standard input and output, files and sockets: over any reader or writer
//! of the standard library. They tell no content; that the real thing gives or keeps the bytes it
//! should isn't proved.
ghost use Rattle.std.specs.Prelude.{◌≡◌, None};

use crate::sink::{Sink, WriteAnswer};
use crate::source::{ReadAnswer, Source};
use std::io::{Read, Write};

/// A source that reads from a reader and counts its errors.
#[derive(Drop)]
pub struct ReaderSource<R> {
    reader: R,
    faults: u64,
}

impl<R: Read> ReaderSource<R> {
    /// A source over the reader, which hasn't failed yet.
    pub fn new(reader: R) -> ReaderSource<R>
        ensures { ⟦<ReaderSource<R> as Source>⟧.faults result ≡ 0 }
    {
        ReaderSource { reader, faults: 0 }
    }
}

impl<R: Read> Source for ReaderSource<R> {
    ghost rest = { λ _. None };

    ghost faults = { λ s. s.faults };

    fn read(&mut self, into: &mut [u8]) -> ReadAnswer {
        match self.reader.read(into) {
            Ok(0) => ReadAnswer::End,
            Ok(count) => ReadAnswer::Got(count),
            Err(_) => {
                self.faults = self.faults.saturating_add(1);
                ReadAnswer::Failed
            }
        }
    }
}

/// A sink that writes to a writer and counts its errors.
#[derive(Drop)]
pub struct WriterSink<W> {
    writer: W,
    faults: u64,
}

impl<W: Write> WriterSink<W> {
    /// A sink over the writer, which hasn't failed yet.
    pub fn new(writer: W) -> WriterSink<W>
        ensures { ⟦<WriterSink<W> as Sink>⟧.faults result ≡ 0 }
    {
        WriterSink { writer, faults: 0 }
    }
}

impl<W: Write> Sink for WriterSink<W> {
    ghost written = { λ _. None };

    ghost flushed = { λ _. None };

    ghost faults = { λ s. s.faults };

    fn write(&mut self, piece: &[u8]) -> WriteAnswer {
        if piece.is_empty() {
            return WriteAnswer::Took(0);
        }
        match self.writer.write(piece) {
            Ok(0) | Err(_) => {
                self.faults = self.faults.saturating_add(1);
                WriteAnswer::Failed
            }
            Ok(count) => WriteAnswer::Took(count),
        }
    }

    fn flush(&mut self) -> WriteAnswer {
        match self.writer.flush() {
            Ok(()) => WriteAnswer::Took(0),
            Err(_) => {
                self.faults = self.faults.saturating_add(1);
                WriteAnswer::Failed
            }
        }
    }
}
