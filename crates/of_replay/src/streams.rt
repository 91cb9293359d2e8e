//! Readers and writers, as files and standard output are, as sources and sinks.
ghost use Rattle.std.specs.Prelude.{◌≡◌, ◌≢◌, ◌≤◌, ◌<◌, ◌+◌, ◌^◌, length, take};
ghost use Rattle.std.specs.Io.KnownBytes.{Appends, Consumes, IsAtEnd};
ghost use Rattle.of_replay.specs.Told.{IsReading, IsWriting, Left, answer_of, answer_bytes, read_ends, read_faults, write_count, write_faults};
ghost use Rattle.of_replay.specs.Passing.{passes};

use crate::io::{Reading, Sink, Source, Writing};
use std::io::{ErrorKind, Read, Write};

/// A source over a reader: what is known of it is what the reader has left.
#[derive(Drop)]
pub struct ReaderSource<R: Read + Drop> {
    reader: R,
    reads: u64,
    ends: u64,
    failures: u64,
    ghost few_ends: { ends ≤ reads },
    ghost few_failures: { failures ≤ reads },
}

impl<R: Read + Drop> ReaderSource<R> {
    pub fn new(reader: R) -> Self
        ensures reader { result.reader ≡ reader }
        ensures reads { (result.reads ≡ 0) × (result.ends ≡ 0) × (result.failures ≡ 0) }
    {
        ReaderSource {
            reader,
            reads: 0,
            ends: 0,
            failures: 0,
        }
    }
}

/// Whether a call that fails so only found nothing this time: it was interrupted, or would have waited for longer.
pub fn is_passing(kind: ErrorKind) -> bool
    ensures { result ≡ passes kind }
{
    matches!(
        kind,
        ErrorKind::Interrupted | ErrorKind::WouldBlock | ErrorKind::TimedOut
    )
}

impl<R: Read + Drop> Source for ReaderSource<R> {
    ghost answers = { λ s. Left (R.remaining s.reader) };

    ghost reads = { λ s. s.reads };

    ghost ends = { λ s. s.ends };

    ghost failures = { λ s. s.failures };

    /// Takes from the reader the bytes that it gives; they end where the reader has none left.
    ///
    /// A read that was interrupted, or for which there are no bytes yet, is made again, and is not counted. Where bytes may be
    /// missing for long, the reader has to pause before it says so.
    fn read(&mut self, buffer: &mut [u8]) -> Reading
        requires room { 0 < length buffer.old }
        requires few { self.old.reads < 2 ^ 63 }
        ensures fits { IsReading result (length buffer.new) }
        ensures waits { result ≢ Reading.Nothing }
        ensures answers { Consumes (R.remaining self.old.reader) (R.remaining self.new.reader) (answer_bytes (answer_of result buffer.new)) }
        ensures end { result ≡ Reading.End → IsAtEnd (R.remaining self.new.reader) }
        ensures reads { self.new.reads ≡ self.old.reads + 1 }
        ensures ends { self.new.ends ≡ self.old.ends + read_ends result }
        ensures failures { self.new.failures ≡ self.old.failures + read_faults result }
    {
        self.reads += 1;
        for _ in 0..u64::MAX {
            match self.reader.read(buffer) {
                Ok(0) => {
                    self.ends += 1;
                    return Reading::End;
                }
                Ok(n) => return Reading::Bytes(n),
                Err(error) if is_passing(error.kind()) => {}
                Err(_) => break,
            }
        }
        self.failures += 1;
        Reading::Fault
    }
}

/// A sink over a writer: what is known of it is what the writer holds.
#[derive(Drop)]
pub struct WriterSink<W: Write + Drop> {
    writer: W,
    failures: u64,
}

impl<W: Write + Drop> WriterSink<W> {
    pub fn new(writer: W) -> Self
        ensures writer { result.writer ≡ writer }
        ensures failures { result.failures ≡ 0 }
    {
        WriterSink {
            writer,
            failures: 0,
        }
    }
}

impl<W: Write + Drop> Sink for WriterSink<W> {
    ghost taken = { λ s. W.contents s.writer };

    ghost failures = { λ s. s.failures };

    /// The writer holds, behind what it held, the bytes that were taken. A write that was interrupted is made again.
    fn write(&mut self, bytes: &[u8]) -> Writing
        requires some { 0 < length bytes.now }
        requires few { self.old.failures < 2 ^ 63 }
        ensures fits { IsWriting result (length bytes.now) }
        ensures taken { Appends (W.contents self.old.writer) (W.contents self.new.writer) (take (write_count result) bytes.now) }
        ensures failures { self.new.failures ≡ self.old.failures + write_faults result }
    {
        for _ in 0..u64::MAX {
            match self.writer.write(bytes) {
                Ok(0) => break,
                Ok(n) => return Writing::Wrote(n),
                Err(error) if error.kind() == ErrorKind::Interrupted => {}
                Err(_) => break,
            }
        }
        self.failures += 1;
        Writing::Fault
    }
}
