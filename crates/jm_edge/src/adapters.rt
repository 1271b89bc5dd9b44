// A source and a sink over std's readers and writers, as a file, a terminal or a socket. They tell nothing of
// content, since no contract can say what the outside gives or keeps, and count their faults.
ghost use Rattle.std.specs.Prelude.{◌≡◌, None};
ghost use Rattle.jm_edge.specs.Faults.{one_more};

use super::faults::count_fault;
use super::sink::{Put, Sink};
use super::source::{Got, Source};
use std::io::{Read, Write};

/// A source over a reader. Each error of the reader is a fault.
#[derive(Drop)]
pub struct ReadSource<R> {
    reader: R,
    faults: u64,
    reads: u64,
}

impl<R: Read> ReadSource<R> {
    /// A source over `reader`, with no faults and no reads counted yet.
    pub fn new(reader: R) -> Self
        ensures faultless { ⟦<ReadSource<R> as Source>⟧.faults result ≡ 0 }
        ensures unread { ⟦<ReadSource<R> as Source>⟧.reads result ≡ 0 }
    {
        ReadSource {
            reader,
            faults: 0,
            reads: 0,
        }
    }
}

impl<R: Read> Source for ReadSource<R> {
    ghost left = { λ _. None };

    ghost faults = { λ s. s.faults };

    ghost reads = { λ s. s.reads };

    fn read(&mut self, buf: &mut [u8]) -> Got {
        self.reads = self.reads.saturating_add(1);
        match self.reader.read(buf) {
            Ok(0) => Got::Done,
            Ok(count) => Got::Octets(count),
            Err(_) => {
                count_fault(&mut self.faults);
                Got::Failed
            }
        }
    }
}

/// A sink over a writer. Each error of the writer is a fault, and so is a write that takes nothing.
#[derive(Drop)]
pub struct WriteSink<W> {
    writer: W,
    faults: u64,
}

impl<W: Write> WriteSink<W> {
    /// A sink over `writer`, with no faults counted yet.
    pub fn new(writer: W) -> Self
        ensures { ⟦<WriteSink<W> as Sink>⟧.faults result ≡ 0 }
    {
        WriteSink { writer, faults: 0 }
    }
}

impl<W: Write> Sink for WriteSink<W> {
    ghost written = { λ _. None };

    ghost faults = { λ s. s.faults };

    fn write(&mut self, piece: &[u8]) -> Put {
        match self.writer.write(piece) {
            Ok(count) if count > 0 => Put::Took(count),
            _ => {
                count_fault(&mut self.faults);
                Put::Failed
            }
        }
    }
}
