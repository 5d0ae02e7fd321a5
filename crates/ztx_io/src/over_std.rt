//! The trusted edge: a source over a reader and a sink over a writer. They tell nothing of content.
ghost use Rattle.std.specs.Prelude.{◌≡◌, None};

use crate::{Read, Sink, Source, Write};
use std::io;

/// The most bytes that one read hands on.
const PIECE: usize = 4096;

/// A source over a reader. Each error counts as a fault.
#[derive(Drop)]
pub struct ReaderSource<R: io::Read> {
    reader: R,
    faults: u64,
}

impl<R: io::Read> ReaderSource<R> {
    /// A source that reads from `reader`, without faults so far.
    pub fn new(reader: R) -> ReaderSource<R>
        ensures { ⟦<ReaderSource<R> as Source>⟧.faults result ≡ 0 }
    {
        ReaderSource { reader, faults: 0 }
    }
}

impl<R: io::Read> Source for ReaderSource<R> {
    ghost left = { λ s. None };

    ghost faults = { λ s. s.faults };

    fn read(&mut self, into: &mut [u8]) -> Read {
        // A reader may write behind the bytes that it counts, so it gets a buffer of its own.
        let mut piece = [0u8; PIECE];
        let room = into.len().min(PIECE);
        match self.reader.read(&mut piece[..room]) {
            Ok(0) => Read::End,
            Ok(n) => {
                into[..n].copy_from_slice(&piece[..n]);
                Read::Got(n)
            }
            Err(_) => {
                self.faults = self.faults.saturating_add(1);
                Read::Failed
            }
        }
    }
}

/// A sink over a writer. Each error counts as a fault, and so does a write that takes nothing.
#[derive(Drop)]
pub struct WriterSink<W: io::Write> {
    writer: W,
    faults: u64,
}

impl<W: io::Write> WriterSink<W> {
    /// A sink that writes to `writer`, without faults so far.
    pub fn new(writer: W) -> WriterSink<W>
        ensures { ⟦<WriterSink<W> as Sink>⟧.faults result ≡ 0 }
    {
        WriterSink { writer, faults: 0 }
    }
}

impl<W: io::Write> Sink for WriterSink<W> {
    ghost held = { λ s. None };

    ghost faults = { λ s. s.faults };

    fn write(&mut self, piece: &[u8]) -> Write {
        match self.writer.write(piece) {
            Ok(n) if n > 0 => Write::Took(n),
            _ => {
                self.faults = self.faults.saturating_add(1);
                Write::Failed
            }
        }
    }
}
