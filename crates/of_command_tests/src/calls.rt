//! What calls of sockets and files mean, and the pauses between calls that nobody answers.
use crate::checks::same;
use of_cache::Cached;
use of_mask_groups::MaskGroups;
use of_replay::memory::MemorySource;
use of_replay::{Ended, Reading};
use of_sockets::{
    Ending, Heard, Pauses, Refusals, RefusedRow, begins_whole, draw_seed, ended_unopened,
    ending_of, is_nobody, read_rows, reading_of, write_some,
};
use of_switch::{Seed, SwitchError};
use std::alloc::Global;
use std::io::{self, ErrorKind, Write};
use std::process::Abort;
use std::random::RandomSource;
use std::test::Fail;

/// How the running switch looks entries up.
type Lookups = Cached<MaskGroups>;

// The pauses in turn.
fn are_pauses(rt: &impl Abort, pauses: &mut Pauses, wanted: &[u64]) {
    for pause in wanted {
        same(rt, "a pause", &pauses.next(), pause);
    }
}

#[test]
fn pauses_double_up_to_five_seconds(rt: HostRuntime) {
    let mut pauses = Pauses::new();
    are_pauses(
        &rt,
        &mut pauses,
        &[100, 200, 400, 800, 1600, 3200, 5000, 5000, 5000],
    );
    pauses.reset();
    are_pauses(&rt, &mut pauses, &[100, 200]);
}

/// Takes two bytes, after this many calls that fail so.
#[derive(Drop)]
struct Faulty {
    calls: u32,
    kind: ErrorKind,
}

impl Write for Faulty {
    fn write(&mut self, buf: &[u8]) -> io::Result<usize> {
        if self.calls == 0 {
            return Ok(buf.len().min(2));
        }
        self.calls -= 1;
        Err(io::Error::from(self.kind))
    }

    fn flush(&mut self) -> io::Result<()> {
        Ok(())
    }
}

fn written(calls: u32, kind: ErrorKind) -> Result<usize, Ending> {
    write_some(&mut Faulty { calls, kind }, b"abc")
}

#[test]
fn writes_that_are_interrupted_are_made_again(rt: HostRuntime) {
    let again = written(3, ErrorKind::Interrupted);
    same(&rt, "interrupted", &again, &Ok(2));
    for (kind, ending) in [
        (ErrorKind::WouldBlock, Ending::ReadsNothing),
        (ErrorKind::TimedOut, Ending::ReadsNothing),
        (ErrorKind::BrokenPipe, Ending::WriteFailed),
    ] {
        same(&rt, "a failed write", &written(1, kind), &Err(ending));
    }
}

// What a read that fails so means.
fn failed(kind: ErrorKind) -> Reading {
    reading_of(&Err(io::Error::from(kind)))
}

#[test]
fn errors_mean(rt: HostRuntime) {
    for kind in [
        ErrorKind::Interrupted,
        ErrorKind::WouldBlock,
        ErrorKind::TimedOut,
    ] {
        same(&rt, "a failed read", &failed(kind), &Reading::Nothing);
        assert!(rt; is_nobody(kind));
    }
    assert!(rt; is_nobody(ErrorKind::ConnectionAborted));
    assert!(rt; !is_nobody(ErrorKind::AddrInUse));
    for (reading, ending) in [
        (failed(ErrorKind::ConnectionReset), Some(Ending::ReadFailed)),
        (reading_of(&Ok(0)), Some(Ending::ByController)),
        (reading_of(&Ok(7)), None),
    ] {
        same(&rt, "a read", &ending_of(reading), &ending);
    }
}

#[test]
fn silent_connections_are_given_up(rt: HostRuntime) {
    let hello = [4, 0, 0, 10, 0, 0, 0, 1, 0, 0];
    for (count, is_whole) in [(0, false), (3, false), (8, false), (9, false), (10, true)] {
        same(&rt, "a HELLO", &begins_whole(&hello[..count]), &is_whole);
    }
    const SECOND: u64 = 1_000_000_000;
    let unmet = Heard {
        begun: 5 * SECOND,
        last: 14 * SECOND,
        is_met: false,
    };
    same(&rt, "10 s", &unmet.ending(15 * SECOND - 1, None), &None);
    same(
        &rt,
        "10 s",
        &unmet.ending(15 * SECOND, None),
        &Some(Ending::NoHello),
    );
    let met = Heard {
        is_met: true,
        ..unmet
    };
    same(&rt, "no limit", &met.ending(99 * SECOND, None), &None);
    same(
        &rt,
        "3 s",
        &met.ending(17 * SECOND, Some(3 * SECOND)),
        &Some(Ending::Idle),
    );
    for (now, gives_way, is_doubted) in [(28, false, false), (29, true, false), (74, true, true)] {
        same(&rt, "15 s", &met.gives_way(now * SECOND), &gives_way);
        same(&rt, "60 s", &met.is_doubted(now * SECOND), &is_doubted);
    }
}

#[test]
fn files_do_not_open(rt: HostRuntime) {
    for (kind, ended) in [
        (ErrorKind::OutOfMemory, Ended::NoMemory),
        (ErrorKind::NotFound, Ended::ReadFault),
        (ErrorKind::PermissionDenied, Ended::ReadFault),
        (ErrorKind::NotADirectory, Ended::ReadFault),
    ] {
        same(&rt, "a file", &ended_unopened(kind), &ended);
    }
}

/// Rows of which three are refused, the last one behind a moment that is earlier than one before it.
const REFUSED: &[u8] = b"# ports
port add 1 020000000001 p1 up
port add 1 020000000001 p1 up

t 2000
port remove 7
t 1000
port link 0 up
";

const THIRD: RefusedRow = RefusedRow {
    due: 0,
    line: 3,
    why: SwitchError::PortExists,
};

const SIXTH: RefusedRow = RefusedRow {
    due: 2000,
    line: 6,
    why: SwitchError::NoSuchPort,
};

const EIGHTH: RefusedRow = RefusedRow {
    due: 2000,
    line: 8,
    why: SwitchError::BadPortNumber,
};

/// Moments, and which row is due then that was not before.
const DUE: &[(u64, Option<RefusedRow>)] = &[
    (0, Some(THIRD)),
    (1999, None),
    (2000, Some(SIXTH)),
    (2000, Some(EIGHTH)),
    (9999, None),
];

fn refusals(alloc: Global) -> Result<Refusals, Fail> {
    let mut file = MemorySource::new(alloc, REFUSED, 50, 0)?;
    let events = read_rows(alloc, &mut file).ok().ok_or("rows")?;
    Ok(Refusals::new::<Lookups>(alloc, REFUSED, &events)?)
}

// The refusals that are due in turn, each with the moment.
fn are_due(rt: &impl Abort, refusals: &mut Refusals, due: &[(u64, Option<RefusedRow>)]) {
    for (now, row) in due {
        same(rt, "a refused row", &refusals.next_due(*now), row);
    }
}

#[test]
fn refused_rows_are_due_in_turn(rt: HostRuntime) -> Result<(), Fail> {
    let mut refusals = refusals(rt.alloc())?;
    are_due(&rt, &mut refusals, DUE);
    Ok(())
}

/// Gives the bytes 1, 2, 3 and so on, or fails.
struct Counting {
    fails: bool,
}

impl RandomSource for Counting {
    fn fill_bytes(&self, buf: &mut [u8]) -> io::Result<()> {
        if self.fails {
            return Err(ErrorKind::Other.into());
        }
        let mut next = 1u8;
        for byte in buf.iter_mut() {
            *byte = next;
            next = next.wrapping_add(1);
        }
        Ok(())
    }
}

#[test]
fn a_seed_has_all_bytes_of_the_source(rt: HostRuntime) {
    let drawn = draw_seed(&Counting { fails: false }).ok();
    let seed = drawn.map(|Seed(number)| number);
    same(&rt, "the seed", &seed, &Some(0x0807_0605_0403_0201));
    let failed = draw_seed(&Counting { fails: true });
    same(&rt, "no seed", &failed.is_err(), &true);
}
