//! A switch on a network in memory: what passes, against the text that RFC 7348 and the rows of event files give.
use crate::checks::same;
use of_cache::Cached;
use of_live::{Endpoint, Live, live};
use of_mask_groups::MaskGroups;
use of_replay::Ended;
use of_replay::memory::MemorySource;
use of_sockets::read_rows;
use of_switch::{Event, Switch};
use of_test_peers::network::{Line, MemoryNetwork, Passed, Taking};
use of_test_peers::rows::bytes_of;
use of_wire::Bytes;
use std::alloc::Global;
use std::process::Abort;
use std::test::Fail;

/// How the running switch looks entries up.
type Lookups = Cached<MaskGroups>;

/// HELLO; a FLOW_MOD that adds a flow of priority 10 for IN_PORT 1, with APPLY of OUTPUT 2; BARRIER_REQUEST of xid 3.
const ASKED: &str =
    "0400000800000001 040e00580000000200000000000000000000000000000000000000000000000affffffffffffffffffffffff000000000001000c800000040000000100000000000400180000000000000010000000020000000000000000 0414000800000003";

const PORTS: &[u8] = b"port add 1 020000000001 p1 up
port add 2 020000000002 p2 up
";

/// What passes: rows of the log, `w` and bytes for the controller, `s`, the port of an endpoint and a datagram, `d` for what is dropped.
const PASSED: &[u8] = b"t 0
port add 1 020000000001 p1 up
port add 2 020000000002 p2 up
connect
w 04000010000000000001000800000010
c 0400000800000001
c 040e00580000000200000000000000000000000000000000000000000000000affffffffffffffffffffffff000000000001000c800000040000000100000000000400180000000000000010000000020000000000000000
c 0414000800000003
w 0415000800000003
f 2 02000000000202000000000188b5
f 1 02000000000202000000000188b5
s 4712 080000000000020002000000000202000000000188b5
d
d
lost
";

/// What a network tells: a time, a connection, bytes of it, a datagram from the port of an endpoint, or its end.
enum Told {
    Time(u64),
    Opened,
    Heard(&'static str),
    Datagram(u16, &'static str),
    Ended,
}

/// Headers of VXLAN, and the frame.
const SCRIPT: &[Told] = &[
    Told::Time(0),
    Told::Opened,
    Told::Heard(ASKED),
    Told::Datagram(4712, "0800000000000200 02000000000202000000000188b5"),
    Told::Datagram(4711, "ff12345600000178 02000000000202000000000188b5"),
    Told::Datagram(4711, "0800000000000300 02000000000202000000000188b5"),
    Told::Datagram(4711, "0000000000000100 02000000000202000000000188b5"),
    Told::Ended,
];

fn line_of(alloc: Global, told: &Told) -> Result<Line, Fail> {
    match told {
        Told::Time(now) => Ok(Line::Time(*now)),
        Told::Opened => Ok(Line::Opened),
        Told::Heard(words) => Ok(Line::Heard(Bytes::new(bytes_of(alloc, words)?))),
        Told::Datagram(port, words) => Ok(Line::Datagram {
            from: Endpoint {
                address: 0xffff_0a00_0001,
                port: *port,
            },
            bytes: Bytes::new(bytes_of(alloc, words)?),
        }),
        Told::Ended => Ok(Line::Ended),
    }
}

fn script(alloc: Global) -> Result<Vec<Line>, Fail> {
    let mut lines = Vec::new(alloc);
    for told in SCRIPT {
        lines.push(line_of(alloc, told)?)?;
    }
    Ok(lines)
}

fn rows(alloc: Global) -> Result<Vec<Event>, Fail> {
    let mut file = MemorySource::new(alloc, PORTS, 50, 0)?;
    Ok(read_rows(alloc, &mut file).ok().ok_or("rows")?)
}

fn push_line(alloc: Global, text: &mut Vec<u8>, word: &str, bytes: &[u8]) -> Result<(), Fail> {
    text.extend_from_slice(word.as_bytes())?;
    text.extend_from_slice(hex::encode(alloc, bytes)?.as_bytes())?;
    Ok(text.push(b'\n')?)
}

fn sent_to(to: Endpoint) -> &'static str {
    if to.port == 4712 {
        "s 4712 "
    } else {
        "s to another port "
    }
}

fn push_passed(alloc: Global, text: &mut Vec<u8>, passed: &Passed) -> Result<(), Fail> {
    match passed {
        Passed::Logged { rows, .. } => Ok(text.extend_from_slice(rows.as_slice())?),
        Passed::Written { bytes, .. } => push_line(alloc, text, "w ", bytes.as_slice()),
        Passed::Sent { to, datagram } => push_line(alloc, text, sent_to(*to), datagram.as_slice()),
        Passed::Dropped(_) => Ok(text.extend_from_slice(b"d\n")?),
        _ => Ok(()),
    }
}

fn text_of(alloc: Global, network: &MemoryNetwork) -> Result<Vec<u8>, Fail> {
    let mut text = Vec::new(alloc);
    for passed in &network.passed {
        push_passed(alloc, &mut text, passed)?;
    }
    Ok(text)
}

// A switch with the ports.
fn switched(alloc: Global) -> Result<Live<Lookups>, Fail> {
    let events = rows(alloc)?;
    let switch = Switch::<Lookups>::new(alloc, 1)?;
    Ok(Live::new(alloc, switch, events, Vec::new(alloc)))
}

const ALL: Taking = Taking {
    most: 65_536,
    fails: false,
    has_log: true,
    log_fails: false,
};

fn network_of(alloc: Global, taking: Taking) -> Result<MemoryNetwork, Fail> {
    Ok(MemoryNetwork::new(alloc, script(alloc)?, taking))
}

// The switch runs for so many turns on that network.
fn run(alloc: Global, network: &mut MemoryNetwork, turns: u64) -> Result<Ended, Fail> {
    let mut state = switched(alloc)?;
    Ok(live(alloc, &mut state, network, turns))
}

fn passes(
    rt: &impl Abort,
    alloc: Global,
    network: &mut MemoryNetwork,
    (turns, ended): &(u64, Ended),
) -> Result<(), Fail> {
    same(rt, "its end", &run(alloc, network, *turns)?, ended);
    let text = text_of(alloc, network)?;
    same(rt, "what passes", &text.as_slice(), &PASSED);
    Ok(())
}

// The network tells eight lines, and then fails.
const ENDS: &[(u64, Ended)] = &[(8, Ended::Done), (9, Ended::ReadFault)];

#[test]
fn frames_pass(rt: HostRuntime) -> Result<(), Fail> {
    for end in ENDS {
        let mut network = network_of(rt.alloc(), ALL)?;
        passes(&rt, rt.alloc(), &mut network, end)?;
    }
    Ok(())
}

#[test]
fn the_log_fails(rt: HostRuntime) -> Result<(), Fail> {
    let taking = Taking {
        log_fails: true,
        ..ALL
    };
    let mut network = network_of(rt.alloc(), taking)?;
    let ended = run(rt.alloc(), &mut network, 8)?;
    same(&rt, "its end", &ended, &Ended::WriteFault);
    same(&rt, "what passes", &network.passed.len(), &2);
    Ok(())
}

/// Headers of an ECHO_REQUEST with 65,000 bytes behind it, and of a BARRIER_REQUEST.
const ECHO: &str = "0402fdf000000004";

const BARRIER: &str = "0414000800000005";

/// An echo of 65,000 bytes is waited for, 17 times, and then a barrier, by a connection that takes 40,000 bytes at a time.
fn much_asked(alloc: Global) -> Result<Vec<Line>, Fail> {
    let mut lines = Vec::new(alloc);
    lines.push(Line::Opened)?;
    lines.push(Line::Heard(Bytes::new(bytes_of(alloc, "0400000800000001")?)))?;
    for number in 1..18 {
        let mut bytes = bytes_of(alloc, ECHO)?;
        bytes.resize(65_008, 0)?;
        if number == 17 {
            bytes.extend_from_slice(&bytes_of(alloc, BARRIER)?)?;
        }
        lines.push(Line::Heard(Bytes::new(bytes)))?;
    }
    lines.push(Line::Ready)?;
    lines.push(Line::Nothing)?;
    lines.push(Line::Nothing)?;
    Ok(lines)
}

// For each turn a letter: `h` if the switch hears the connection, `m` if it has messages to handle, `-` if it waits until answers are taken.
fn wants(alloc: Global, network: &MemoryNetwork) -> Result<Vec<u8>, Fail> {
    let mut text = Vec::new(alloc);
    for passed in &network.passed {
        if let Passed::Told { wanted, .. } = passed {
            text.push(if wanted.hears {
                b'h'
            } else if wanted.at_once {
                b'm'
            } else {
                b'-'
            })?;
        }
    }
    Ok(text)
}

#[test]
fn messages_wait_for_answers(rt: HostRuntime) -> Result<(), Fail> {
    let taking = Taking {
        most: 40_000,
        has_log: false,
        ..ALL
    };
    let mut network = MemoryNetwork::new(rt.alloc(), much_asked(rt.alloc())?, taking);
    let ended = run(rt.alloc(), &mut network, 22)?;
    same(&rt, "its end", &ended, &Ended::Done);
    let text = wants(rt.alloc(), &network)?;
    same(
        &rt,
        "what it wants",
        &text.as_slice(),
        &b"hhhhhhhhhhhhhhhhhhh-mh".as_slice(),
    );
    Ok(())
}
