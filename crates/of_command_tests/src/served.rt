use crate::checks::same;
use of_cache::Cached;
use of_mask_groups::MaskGroups;
use of_replay::Ended;
use of_replay::memory::{MemorySink, MemorySource};
use of_serve::serve;
use of_sockets::read_rows;
use of_switch::Event;
use of_test_peers::peers::{Failing, Line, MemoryClock, MemoryPeers};
use of_test_peers::rows::bytes_of;
use of_wire::Bytes;
use std::alloc::Global;
use std::process::Abort;
use std::test::Fail;

/// How the running switch looks entries up.
type Lookups = Cached<MaskGroups>;

/// HELLO, and a FLOW_MOD that adds a flow of priority 10 for IN_PORT 1, with APPLY of OUTPUT 2.
const HELLO_AND_FLOW: &str =
    "0400000800000001 040e00580000000200000000000000000000000000000000000000000000000affffffffffffffffffffffff000000000001000c800000040000000100000000000400180000000000000010000000020000000000000000";

/// BARRIER_REQUEST of xid 3.
const BARRIER: &str = "0414000800000003";

/// The same together.
const ASKED: &str =
    "0400000800000001 040e00580000000200000000000000000000000000000000000000000000000affffffffffffffffffffffff000000000001000c800000040000000100000000000400180000000000000010000000020000000000000000 0414000800000003";

/// The switch's HELLO, and BARRIER_REPLY.
const ANSWERS: &[u8] = &[
    4, 0, 0, 16, 0, 0, 0, 0, 0, 1, 0, 8, 0, 0, 0, 16, 4, 21, 0, 8, 0, 0, 0, 3,
];

const ROWS: &[u8] = b"port add 1 020000000001 p1 up
port add 2 020000000002 p2 up
t 1000
f 1 02000000000202000000000188b500000000000000000000000000000000000000000000000000000000000000000000000000000000000000000000
";

const SENT: &[u8] =
    b"s 2 02000000000202000000000188b500000000000000000000000000000000000000000000000000000000000000000000000000000000000000000000
";

/// What a controller does: it connects, sends these bytes, does nothing, or goes.
enum Doing {
    Opens,
    Gives(&'static str),
    Waits,
    Goes,
}

/// What is served: what controllers do, the moments of the clock, the file of rows, and for how many turns.
struct Served {
    script: &'static [Doing],
    times: &'static [u64],
    rows: &'static [u8],
    turns: u32,
}

/// Two controllers that say HELLO, add a flow, ask for a barrier, and then go; and then nobody.
const TWICE: Served = Served {
    script: &[
        Doing::Opens,
        Doing::Gives(ASKED),
        Doing::Goes,
        Doing::Opens,
        Doing::Gives(ASKED),
        Doing::Goes,
        Doing::Waits,
        Doing::Waits,
        Doing::Waits,
        Doing::Waits,
        Doing::Waits,
        Doing::Waits,
        Doing::Waits,
        Doing::Waits,
    ],
    times: &[],
    rows: b"",
    turns: 8,
};

/// A controller that says HELLO, adds a flow and stays, with the rows, at three moments.
const STAYING: Served = Served {
    script: &[
        Doing::Opens,
        Doing::Gives(HELLO_AND_FLOW),
        Doing::Waits,
        Doing::Waits,
        Doing::Waits,
    ],
    times: &[0, 1000, 2000],
    rows: ROWS,
    turns: 4,
};

/// A controller whose BARRIER_REQUEST comes with the frame of the file.
const ASKING_LATE: Served = Served {
    script: &[
        Doing::Opens,
        Doing::Gives(HELLO_AND_FLOW),
        Doing::Gives(BARRIER),
    ],
    times: &[0, 1000],
    rows: ROWS,
    turns: 3,
};

fn line_of(alloc: Global, doing: &Doing) -> Result<Line, Fail> {
    match doing {
        Doing::Opens => Ok(Line::Open),
        Doing::Gives(words) => Ok(Line::Gives(Bytes::new(bytes_of(alloc, words)?))),
        Doing::Waits => Ok(Line::Idle),
        Doing::Goes => Ok(Line::End),
    }
}

fn lines_of(alloc: Global, script: &[Doing]) -> Result<Vec<Line>, Fail> {
    let mut lines = Vec::new(alloc);
    for doing in script {
        lines.push(line_of(alloc, doing)?)?;
    }
    Ok(lines)
}

fn events_of(alloc: Global, rows: &[u8]) -> Result<Vec<Event>, Fail> {
    let mut file = MemorySource::new(alloc, rows, 50, 0)?;
    Ok(read_rows(alloc, &mut file).ok().ok_or("rows")?)
}

/// How serving ended, what connections took, and what was written.
#[derive(Drop)]
struct Outcome {
    ended: Ended,
    peers: MemoryPeers,
    out: MemorySink,
}

// Serves these with calls that fail, and an output whose write of that number fails; writes to connections take a byte each.
fn serve_to(
    alloc: Global,
    served: &Served,
    failing: Failing,
    fails_at: u64,
) -> Result<Outcome, Fail> {
    let events = events_of(alloc, served.rows)?;
    let times = Vec::from_slice(alloc, served.times)?;
    let lines = lines_of(alloc, served.script)?;
    let mut peers = MemoryPeers::new(alloc, lines, 1, failing);
    let mut clock = MemoryClock::new(times);
    let mut out = MemorySink::new(alloc, 7, fails_at);
    let turns = served.turns;
    let ended = serve::<Lookups, _, _, _>(
        alloc, 1, &mut peers, &mut clock, events, turns, &mut out,
    );
    Ok(Outcome { ended, peers, out })
}

// The connection of that place, the newest first, took so many bytes of the answers; if that is None, there was no such connection.
fn is_taken(rt: &impl Abort, peers: &MemoryPeers, place: usize, count: Option<usize>) {
    let taken = peers.taken(place);
    same(rt, "bytes", &taken.map(|bytes| bytes.len()), &count);
    assert!(rt; ANSWERS.starts_with(taken.unwrap_or(ANSWERS)));
}

// How many bytes of its answers a controller has taken when that call of its 27 fails: an accept, 16 writes of the HELLO,
// a read, 8 writes of the BARRIER_REPLY and a read.
fn taken_before(call: u64) -> Option<usize> {
    let writes = if call <= 18 {
        call.checked_sub(2)?
    } else {
        call.min(27) - 3
    };
    Some(writes as usize)
}

// The first and the second of two controllers took so many bytes.
fn are_taken(rt: &impl Abort, peers: &MemoryPeers, first: Option<usize>, second: Option<usize>) {
    let newest = second.or(first);
    is_taken(rt, peers, 0, newest);
    is_taken(rt, peers, 1, second.and(first));
}

// What two controllers took when that call failed, and how serving ended.
fn are_served(rt: &impl Abort, call: u64, outcome: &Outcome) {
    let (first, second) = match call {
        0..=1 => (None, None),
        2..=27 => (taken_before(call), Some(24)),
        _ => (Some(24), taken_before(call - 27)),
    };
    are_taken(rt, &outcome.peers, first, second);
    let ended = if call % 27 == 1 {
        Ended::ReadFault
    } else {
        Ended::Done
    };
    same(rt, "its end", &outcome.ended, &ended);
}

#[test]
fn no_call_fails(rt: HostRuntime) -> Result<(), Fail> {
    let outcome = serve_to(rt.alloc(), &TWICE, Failing::Never, 0)?;
    same(&rt, "its end", &outcome.ended, &Ended::Done);
    are_taken(&rt, &outcome.peers, Some(24), Some(24));
    Ok(())
}

// Two controllers are served. Each call of theirs fails in turn, alone: what was written before it is all that a
// connection takes, and the next controller is served as if nothing had happened. Only a failed accept ends serving.
#[test]
fn one_call_fails(rt: HostRuntime) -> Result<(), Fail> {
    for call in 1..=55_u64 {
        let outcome = serve_to(rt.alloc(), &TWICE, Failing::Once(call), 0)?;
        are_served(&rt, call, &outcome);
    }
    Ok(())
}

// The first controller took what was written before that call, and there is no further connection.
fn is_last(rt: &impl Abort, call: u64, outcome: &Outcome) {
    same(rt, "its end", &outcome.ended, &Ended::ReadFault);
    are_taken(rt, &outcome.peers, taken_before(call), None);
}

// The same, where each call after it fails as well: there is no further connection.
#[test]
fn calls_fail_from_one_on(rt: HostRuntime) -> Result<(), Fail> {
    for call in 1..=27_u64 {
        let outcome = serve_to(rt.alloc(), &TWICE, Failing::From(call), 0)?;
        is_last(&rt, call, &outcome);
    }
    Ok(())
}

// What is sent when that call fails: the frame comes with the second read, which is call 19.
fn is_sent(rt: &impl Abort, call: u64, outcome: &Outcome, is_done: bool) {
    is_taken(rt, &outcome.peers, 0, taken_before(call.min(18)));
    let wanted: &[u8] = if call < 19 { b"" } else { SENT };
    same(rt, "the frame", &outcome.out.bytes(), &wanted);
    same(rt, "done", &(outcome.ended == Ended::Done), &is_done);
}

// A controller with rows in time: call 1 is its accept, 2 to 17 are writes of the HELLO, 18 to 20 are reads.
#[test]
fn calls_fail_between_rows(rt: HostRuntime) -> Result<(), Fail> {
    for call in 1..=21_u64 {
        let outcome = serve_to(rt.alloc(), &STAYING, Failing::Once(call), 0)?;
        is_sent(&rt, call, &outcome, call > 1);
    }
    for call in 1..=21_u64 {
        let outcome = serve_to(rt.alloc(), &STAYING, Failing::From(call), 0)?;
        is_sent(&rt, call, &outcome, call > 19);
    }
    Ok(())
}

fn is_cut(rt: &impl Abort, fails_at: u64, outcome: &Outcome) {
    is_taken(rt, &outcome.peers, 0, Some(ANSWERS.len()));
    let written = outcome.out.bytes();
    let cut = fails_at > 0 && written.len() < SENT.len();
    same(rt, "cut", &(outcome.ended == Ended::WriteFault), &cut);
    let whole = written == SENT;
    same(rt, "whole", &(outcome.ended == Ended::Done), &whole);
    assert!(rt; SENT.starts_with(written));
}

// The answers of a turn go out before its lines: where the output fails, from its first write on, all answers were taken.
#[test]
fn output_fails(rt: HostRuntime) -> Result<(), Fail> {
    for fails_at in 0..=20_u64 {
        let outcome = serve_to(rt.alloc(), &ASKING_LATE, Failing::Never, fails_at)?;
        is_cut(&rt, fails_at, &outcome);
    }
    Ok(())
}
