//! The source and the sink in memory.
ghost use Rattle.std.specs.Prelude.{◌≡◌, ◌<◌, ◌+◌, ◌^◌};
ghost use Rattle.of_replay.specs.Memory.{reads_of};

use crate::checks::same;
use of_replay::memory::{MemorySink, MemorySource};
use of_replay::{Reading, Sink, Source, Writing};
use std::process::Abort;
use std::test::Fail;

/// Asserts what a read into so many bytes gives.
fn gives(rt: &impl Abort, source: &mut MemorySource, size: usize, wanted: Reading, bytes: &[u8])
    requires { reads_of source.old < 2 ^ 32 }
    ensures { reads_of source.new ≡ reads_of source.old + 1 }
{
    assert!(rt; size > 0 && size <= 8);
    let mut buffer = [0; 8];
    let read = source.read(&mut buffer[..size]);
    same(rt, "a read", &read, &wanted);
    let begins = buffer.as_slice().starts_with(bytes);
    same(rt, "the bytes of a read", &begins, &true);
}

#[test]
fn source_is_read_in_chunks_to_its_end(rt: HostRuntime) -> Result<(), Fail> {
    let mut source = MemorySource::new(rt.alloc(), b"0123456789", 4, 0)?;
    gives(&rt, &mut source, 8, Reading::Bytes(4), b"0123");
    gives(&rt, &mut source, 8, Reading::Bytes(4), b"4567");
    gives(&rt, &mut source, 8, Reading::Bytes(2), b"89");
    gives(&rt, &mut source, 8, Reading::End, b"");
    gives(&rt, &mut source, 8, Reading::End, b"");
    Ok(())
}

#[test]
fn source_fails_from_the_second_read_on(rt: HostRuntime) -> Result<(), Fail> {
    let mut source = MemorySource::new(rt.alloc(), b"0123456789", 4, 2)?;
    gives(&rt, &mut source, 3, Reading::Bytes(3), b"012");
    gives(&rt, &mut source, 3, Reading::Fault, b"");
    gives(&rt, &mut source, 3, Reading::Fault, b"");
    Ok(())
}

#[test]
fn sink_takes_chunks_and_fails_at_the_third_write(rt: HostRuntime) {
    let mut sink = MemorySink::new(rt.alloc(), 3, 3);
    same(&rt, "write 1", &sink.write(b"01234"), &Writing::Wrote(3));
    same(&rt, "write 2", &sink.write(b"34"), &Writing::Wrote(2));
    same(&rt, "write 3", &sink.write(b"5"), &Writing::Fault);
    same(&rt, "what was taken", &sink.bytes(), &b"01234".as_slice());
}
