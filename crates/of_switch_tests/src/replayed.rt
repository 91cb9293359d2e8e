//! `replay`: reads and writes that fail, and the first bad row.
ghost use Rattle.std.specs.Prelude.{◌<◌};

use crate::checks::same;
use of_cache::Cached;
use of_mask_groups::MaskGroups;
use of_replay::memory::{MemorySink, MemorySource};
use of_replay::{Ended, replay};
use std::alloc::Global;
use std::process::Abort;
use std::test::Fail;

/// How the running switch looks entries up.
pub type Lookups = Cached<MaskGroups>;

// Ports, HELLO, a FLOW_MOD that adds a flow of priority 10 for IN_PORT 1 with APPLY_ACTIONS of OUTPUT 2, and a frame
// at port 1 (OpenFlow 1.3.5, 7.5.1 and 7.3.4.1).
pub const EVENTS: &[u8] = b"port add 1 0200000000a1 p1 up
port add 2 0200000000a2 p2 up
port add 3 0200000000a3 p3 up
connect
c 0400000800000001
c 040e00580000000200000000000000000000000000000000000000000000000affffffffffffffffffffffff000000000001000c800000040000000100000000000400180000000000000010000000020000000000000000
f 1 02000000000202000000000188b500000000000000000000000000000000000000000000000000000000000000000000000000000000000000000000
";

pub const PRINTED: &[u8] = b"a 04000010000000000001000800000010
s 2 02000000000202000000000188b500000000000000000000000000000000000000000000000000000000000000000000000000000000000000000000
";

// A fault at each of the first six calls ends the run with a front of the text. The seventh is never made.
fn is_ended(rt: &impl Abort, ended: &Ended, call: u64, fault: &Ended, text: &[u8]) {
    if call < 7 {
        same(rt, call, ended, fault);
        same(rt, call, &PRINTED.starts_with(text), &true);
    } else {
        same(rt, call, ended, &Ended::Done);
        same(rt, call, &text, &PRINTED);
    }
}

// How a replay of these events ends, and what it wrote: a read gives and a write takes so many bytes at most, and each fails from a
// call on, or for 0 never.
fn replayed(
    alloc: Global,
    events: &[u8],
    given: usize,
    faulty_read: u64,
    taken: usize,
    faulty_write: u64,
) -> Result<(Ended, MemorySink), Fail>
    requires gives { 0 < given }
    requires takes { 0 < taken }
{
    let mut source = MemorySource::new(alloc, events, given, faulty_read)?;
    let mut sink = MemorySink::new(alloc, taken, faulty_write);
    let ended = replay::<Lookups, _, _>(alloc, 1, &mut source, &mut sink);
    Ok((ended, sink))
}

#[test]
fn each_read_fails_in_turn(rt: HostRuntime) -> Result<(), Fail> {
    for call in 1..=7 {
        let (ended, sink) = replayed(rt.alloc(), EVENTS, 85, call, 1000, 0)?;
        is_ended(&rt, &ended, call, &Ended::ReadFault, sink.bytes());
    }
    Ok(())
}

#[test]
fn each_write_fails_in_turn(rt: HostRuntime) -> Result<(), Fail> {
    for call in 1..=7 {
        let (ended, sink) = replayed(rt.alloc(), EVENTS, 1000, 0, 27, call)?;
        is_ended(&rt, &ended, call, &Ended::WriteFault, sink.bytes());
    }
    Ok(())
}

#[test]
fn first_bad_row_is_named(rt: HostRuntime) -> Result<(), Fail> {
    let events = b"connect\n# a comment\nconect\nlost\n";
    let (ended, sink) = replayed(rt.alloc(), events, 5, 0, 1000, 0)?;
    same(&rt, "the third row", &ended, &Ended::BadRow(3));
    let printed = b"a 04000010000000000001000800000010\n".as_slice();
    same(&rt, "what is printed", &sink.bytes(), &printed);
    Ok(())
}
