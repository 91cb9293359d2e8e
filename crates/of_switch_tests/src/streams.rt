//! The sources and sinks over readers and writers, of which some give or take one byte, are interrupted, or fail.
use crate::checks::same;
use crate::replayed::{EVENTS, Lookups, PRINTED};
use of_replay::streams::{ReaderSource, WriterSink};
use of_replay::{Ended, replay};
use std::alloc::Global;
use std::io::{self, ErrorKind, Read, Write};
use std::process::Abort;

/// Gives one byte a read. The read `faulty`, counted from 1, is an error of this kind; those after it go on.
#[derive(Drop)]
struct OneByteReader {
    at: usize,
    reads: u64,
    faulty: u64,
    kind: ErrorKind,
}

impl Read for OneByteReader {
    fn read(&mut self, buf: &mut [u8]) -> io::Result<usize> {
        self.reads = self.reads.wrapping_add(1);
        if self.reads == self.faulty {
            return Err(io::Error::from(self.kind));
        }
        match (EVENTS.get(self.at), buf.first_mut()) {
            (Some(byte), Some(place)) => {
                *place = *byte;
                self.at += 1;
                Ok(1)
            }
            _ => Ok(0),
        }
    }
}

/// Takes one byte a write. The write `faulty`, counted from 1, is an error of this kind, or for `WriteZero` takes nothing;
/// those after it go on.
#[derive(Drop)]
struct OneByteWriter {
    bytes: Vec<u8>,
    writes: u64,
    faulty: u64,
    kind: ErrorKind,
}

impl Write for OneByteWriter {
    fn write(&mut self, buf: &[u8]) -> io::Result<usize> {
        self.writes = self.writes.wrapping_add(1);
        if self.writes == self.faulty {
            if self.kind == ErrorKind::WriteZero {
                return Ok(0);
            }
            return Err(io::Error::from(self.kind));
        }
        match buf.first() {
            Some(byte) => {
                self.bytes.push(*byte)?;
                Ok(1)
            }
            None => Ok(0),
        }
    }

    fn flush(&mut self) -> io::Result<()> {
        Ok(())
    }
}

fn reader(faulty: u64, kind: ErrorKind) -> OneByteReader {
    OneByteReader {
        at: 0,
        reads: 0,
        faulty,
        kind,
    }
}

fn writer(alloc: Global, faulty: u64, kind: ErrorKind) -> OneByteWriter {
    OneByteWriter {
        bytes: Vec::new(alloc),
        writes: 0,
        faulty,
        kind,
    }
}

// How the run ends.
fn play(alloc: Global, reader: OneByteReader, writer: &mut OneByteWriter) -> Ended {
    let mut source = ReaderSource::new(reader);
    let mut sink = WriterSink::new(writer);
    replay::<Lookups, _, _>(alloc, 1, &mut source, &mut sink)
}

// Asserts how a run with this reader ends, and that a front of the text was written.
fn ends(
    rt: &impl Abort,
    alloc: Global,
    reader: OneByteReader,
    writer: &mut OneByteWriter,
    wanted: &Ended,
) {
    let call = reader.faulty.max(writer.faulty);
    let ended = play(alloc, reader, writer);
    same(rt, call, &ended, wanted);
    let is_front = PRINTED.starts_with(&writer.bytes);
    same(rt, call, &is_front, &true);
}

#[test]
fn interrupted_calls_are_made_again(rt: HostRuntime) {
    for call in 0..9 {
        let mut taken = writer(rt.alloc(), call, ErrorKind::Interrupted);
        let given = reader(call, ErrorKind::Interrupted);
        ends(&rt, rt.alloc(), given, &mut taken, &Ended::Done);
        same(&rt, call, &taken.bytes.as_slice(), &PRINTED);
    }
}

// Each read fails in turn: those of the bytes, and the one that finds the end.
#[test]
fn a_read_that_fails_ends_the_run(rt: HostRuntime) {
    for call in 1..=EVENTS.len() as u64 + 1 {
        let mut taken = writer(rt.alloc(), 0, ErrorKind::Other);
        let given = reader(call, ErrorKind::PermissionDenied);
        ends(&rt, rt.alloc(), given, &mut taken, &Ended::ReadFault);
    }
}

#[test]
fn a_write_that_fails_or_takes_nothing_ends_the_run(rt: HostRuntime) {
    for kind in [ErrorKind::BrokenPipe, ErrorKind::WriteZero] {
        for call in 1..=PRINTED.len() as u64 {
            let mut taken = writer(rt.alloc(), call, kind);
            let given = reader(0, ErrorKind::Other);
            ends(&rt, rt.alloc(), given, &mut taken, &Ended::WriteFault);
            same(&rt, call, &taken.writes, &call);
        }
    }
}
