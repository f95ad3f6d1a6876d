// std's readers and writers as sources and sinks.
ghost use Rattle.std.specs.Prelude.{◌≡◌};

use mt_outside::{Faults, ReadFault, Sink, Source, WriteFault, read_some, write_some};
use std::io::{Read, Write};
use std::marker::Model;

/// A reader of std as a source. Each of its errors is a fault, and is counted; an interrupted read is tried again, at most `MOST_TRIES` times in all.
#[derive(Drop)]
pub struct StdSource<R> {
    reader: R,
    faults: Faults,
}

impl<R> Model for StdSource<R> {
    ghost use Rattle.disk_real.specs.States.{Counted};

    ghost Value = { Counted R };

    ghost view = { λ s. record { inner = s.reader; failed = s.faults.count } };
}

impl<R> StdSource<R> {
    /// A source over a reader. No read has failed yet.
    pub fn new(reader: R) -> Self
        ensures inner { result.inner ≡ reader }
        ensures failed { result.failed ≡ 0 }
    {
        StdSource {
            reader,
            faults: Faults::none(),
        }
    }
}

impl<R: Read> Source for StdSource<R> {
    ghost left = { λ s. R.remaining s.inner };

    ghost failed = { λ s. s.failed };

    fn read(&mut self, buf: &mut [u8]) -> Result<usize, ReadFault> {
        match read_some(&mut self.reader, buf) {
            Ok(count) => Ok(count),
            Err(_) => {
                self.faults.raise();
                Err(ReadFault)
            }
        }
    }

    fn faults(&self) -> u64 {
        self.faults.count
    }
}

/// A writer of std as a sink. Each of its errors is a fault, and so is a write that takes nothing of a piece that is not empty; both are counted.
/// An interrupted write is tried again, at most `MOST_TRIES` times in all.
///
/// The writer is never flushed, so give one that keeps nothing back, as the standard output of a runtime: it hands each piece to the system in the write itself.
#[derive(Drop)]
pub struct StdSink<W> {
    writer: W,
    faults: Faults,
}

impl<W> Model for StdSink<W> {
    ghost use Rattle.disk_real.specs.States.{Counted};

    ghost Value = { Counted W };

    ghost view = { λ s. record { inner = s.writer; failed = s.faults.count } };
}

impl<W> StdSink<W> {
    /// A sink over a writer. No write has failed yet.
    pub fn new(writer: W) -> Self
        ensures inner { result.inner ≡ writer }
        ensures failed { result.failed ≡ 0 }
    {
        StdSink {
            writer,
            faults: Faults::none(),
        }
    }
}

impl<W: Write> Sink for StdSink<W> {
    ghost written = { λ s. W.contents s.inner };

    ghost failed = { λ s. s.failed };

    fn write(&mut self, bytes: &[u8]) -> Result<usize, WriteFault> {
        match write_some(&mut self.writer, bytes) {
            Ok(count) => Ok(count),
            Err(_) => {
                self.faults.raise();
                Err(WriteFault)
            }
        }
    }

    fn faults(&self) -> u64 {
        self.faults.count
    }
}
