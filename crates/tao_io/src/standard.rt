//! The readers and writers of std as sources and sinks.
// Thin over std: no proof tells what a real stream holds.
ghost use Rattle.std.specs.Prelude.{◌≡◌};

use crate::{Sink, SinkFailed, Source, SourceFailed};
use counts::Count;
use std::io::{Read, Write};

/// A reader of std as a source. Each error of the reader is a fault, an interrupted read too.
#[derive(Drop)]
pub struct StdSource<R> {
    reader: R,
    faults: Count,
}

impl<R: Read> StdSource<R> {
    ghost use Rattle.tao_io.specs.Standard.{reader_of, read_faults};

    /// A source of what the reader gives.
    pub fn of(reader: R) -> StdSource<R>
        ensures reader { reader_of result ≡ reader }
        ensures faults { read_faults result ≡ 0 }
    {
        StdSource {
            reader,
            faults: Count::new(),
        }
    }
}

impl<R: Read> Source for StdSource<R> {
    ghost use Rattle.tao_io.specs.Standard.{reader_of, read_faults};

    ghost left = { λ s. R.remaining (reader_of s) };

    ghost faults = { read_faults };

    fn take(&mut self, into: &mut [u8]) -> Result<usize, SourceFailed> {
        match self.reader.read(into) {
            Ok(count) => Ok(count),
            Err(_) => {
                self.faults.rise();
                Err(SourceFailed)
            }
        }
    }
}

/// A writer of std as a sink. Each error of the writer is a fault, an interrupted write too.
#[derive(Drop)]
pub struct StdSink<W> {
    writer: W,
    faults: Count,
}

impl<W: Write> StdSink<W> {
    ghost use Rattle.tao_io.specs.Standard.{writer_of, write_faults};

    /// A sink that hands what it takes to the writer, which may hold it back until it is flushed.
    pub fn of(writer: W) -> StdSink<W>
        ensures writer { writer_of result ≡ writer }
        ensures faults { write_faults result ≡ 0 }
    {
        StdSink {
            writer,
            faults: Count::new(),
        }
    }
}

impl<W: Write> Sink for StdSink<W> {
    ghost use Rattle.tao_io.specs.Standard.{writer_of, write_faults};

    ghost taken = { λ s. W.contents (writer_of s) };

    ghost faults = { write_faults };

    fn put(&mut self, piece: &[u8]) -> Result<usize, SinkFailed> {
        match self.writer.write(piece) {
            Ok(count) => {
                if count == 0 && !piece.is_empty() {
                    self.faults.rise();
                }
                Ok(count)
            }
            Err(_) => {
                self.faults.rise();
                Err(SinkFailed)
            }
        }
    }

    fn flush(&mut self) -> Result<(), SinkFailed> {
        match self.writer.flush() {
            Ok(()) => Ok(()),
            Err(_) => {
                self.faults.rise();
                Err(SinkFailed)
            }
        }
    }

    fn progress(&mut self, _done: u64, _all: u64) {}
}
