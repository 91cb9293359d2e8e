//! A network in memory, which tells what its script says and records what passes.
ghost use Rattle.std.specs.Prelude.{◌≡◌, ◌≤◌, ◌∷◌, ◌++◌, [], length, take, Some, IfOk, IfSome, IsTrue};
ghost use Rattle.of_test_peers.specs.Network.{act_of, came_of_line, passed_acts};
ghost use Rattle.of_live.specs.Acts.{Act, Logs, Records, Sends, Told, Writes};
ghost use Rattle.of_live.specs.Inputs.{Fault, IsInput, came_of};

use of_live::{Dropped, Endpoint, Input, Network, Wanted, Written};
use of_switch::{Event, PortChange};
use of_wire::Bytes;
use std::alloc::{AllocError, Global};

/// What a network tells at one time.
#[derive(Drop)]
pub enum Line {
    Time(u64),
    Datagram { from: Endpoint, bytes: Bytes },
    Opened,
    Heard(Bytes),
    Ended,
    Ready,
    /// Somebody writes the row of this change.
    Port(PortChange),
    Nothing,
    Fault,
}

/// What passed between a network and a switch.
#[derive(Drop)]
pub enum Passed {
    /// The switch wanted this, and the network told that.
    Told {
        wanted: Wanted,
        line: Line,
    },
    /// A datagram, or a frame that should leave, was dropped.
    Dropped(Dropped),
    /// Rows were to be written to the log.
    Logged {
        rows: Bytes,
        whole: bool,
    },
    /// A datagram was sent.
    Sent {
        to: Endpoint,
        datagram: Bytes,
    },
    /// Bytes were offered to the connection.
    Written {
        bytes: Bytes,
        taken: usize,
        failed: bool,
    },
    /// The connection was closed.
    Closed,
}

/// How the connection and the log take bytes.
#[derive(Clone, Copy, PartialEq, Eq)]
pub struct Taking {
    /// How many bytes a write takes at most.
    pub most: usize,
    /// Whether writes to the connection fail.
    pub fails: bool,
    /// Whether there is a log, and whether it takes rows.
    pub has_log: bool,
    pub log_fails: bool,
}

/// A network that tells the lines of a script, one after the other, and then fails. While the switch does not hear bytes of its
/// controller, it tells nothing in their place.
#[derive(Drop)]
pub struct MemoryNetwork {
    // those that were not told yet, the last one first
    script: Vec<Line>,
    taking: Taking,
    /// What passed, in order.
    pub passed: Vec<Passed>,
    /// Whether that is all: memory did not run out for it.
    pub is_whole: bool,
    alloc: Global,
}

// Puts bytes at the start of a buffer; false if they do not fit.
fn fill(buffer: &mut [u8], bytes: &[u8]) -> bool
    ensures fits { IsTrue result → length bytes.now ≤ length buffer.old }
    ensures filled { IsTrue result → take (length bytes.now) buffer.new ≡ bytes.now }
    ensures room { length buffer.new ≡ length buffer.old }
{
    if bytes.len() > buffer.len() {
        return false;
    }
    buffer[..bytes.len()].copy_from_slice(bytes);
    true
}

// The record of bytes that were offered to the connection.
fn written(alloc: Global, bytes: &[u8], taken: usize, failed: bool) -> Result<Passed, AllocError>
    ensures { IfOk result (λ p. act_of p ≡ Writes bytes.now taken failed) }
{
    Ok(Passed::Written {
        bytes: Bytes::from_slice(alloc, bytes)?,
        taken,
        failed,
    })
}

// The record of rows for the log.
fn logged(alloc: Global, rows: &[u8], whole: bool) -> Result<Passed, AllocError>
    ensures { IfOk result (λ p. act_of p ≡ Logs rows.now whole) }
{
    Ok(Passed::Logged {
        rows: Bytes::from_slice(alloc, rows)?,
        whole,
    })
}

// The record of a datagram that was sent.
fn sent(alloc: Global, to: Endpoint, header: &[u8], frame: &[u8]) -> Result<Passed, AllocError>
    ensures { IfOk result (λ p. act_of p ≡ Sends to (header.now ++ frame.now)) }
{
    let mut datagram = Vec::new(alloc);
    datagram.extend_from_slice(header)?;
    datagram.extend_from_slice(frame)?;
    Ok(Passed::Sent {
        to,
        datagram: Bytes::new(datagram),
    })
}

// What a line tells, with its bytes in the buffer; None if they do not fit.
fn tell(line: &Line, buffer: &mut [u8]) -> Option<Input>
    requires { length buffer.old ≡ 65536 }
    ensures told { IfSome result (λ input. IsInput input × (came_of input buffer.new ≡ came_of_line line.now)) }
    ensures room { length buffer.new ≡ length buffer.old }
{
    match line {
        Line::Time(now) => Some(Input::Time(*now)),
        Line::Opened => Some(Input::Opened),
        Line::Ended => Some(Input::Ended),
        Line::Ready => Some(Input::Ready),
        Line::Nothing => Some(Input::Nothing),
        Line::Fault => Some(Input::Fault),
        Line::Port(change) => Some(Input::Row(Event::Ports(*change))),
        Line::Heard(bytes) => {
            fill(buffer, bytes.as_slice()).then_some(Input::Heard(bytes.len()))
        }
        Line::Datagram { from, bytes } => {
            fill(buffer, bytes.as_slice()).then_some(Input::Datagram {
                from: *from,
                length: bytes.len(),
            })
        }
    }
}

impl MemoryNetwork {
    /// A network of that script.
    pub fn new(alloc: Global, script: Vec<Line>, taking: Taking) -> Self
        ensures told { passed_acts result ≡ Some [] }
        ensures keeps { result.taking ≡ taking }
    {
        let mut script = script;
        script.reverse();
        MemoryNetwork {
            script,
            taking,
            passed: Vec::new(alloc),
            is_whole: true,
            alloc,
        }
    }

    // Appends a record, if there is memory for it.
    fn note(&mut self, made: Result<Passed, AllocError>)
        ensures told { (act : Act) → IfOk made (λ p. act_of p ≡ act) → Records (passed_acts self.old) (act ∷ []) (passed_acts self.new) }
        ensures taking { self.new.taking ≡ self.old.taking }
    {
        let Ok(passed) = made else {
            self.is_whole = false;
            return;
        };
        if self.passed.push(passed).is_err() {
            self.is_whole = false;
        }
    }

    // What is told to a switch that hears its controller or does not.
    fn next_line(&mut self, hears: bool) -> Line
        ensures told { passed_acts self.new ≡ passed_acts self.old }
        ensures taking { self.new.taking ≡ self.old.taking }
    {
        match self.script.last() {
            Some(Line::Heard(_)) if !hears => Line::Nothing,
            _ => self.script.pop().unwrap_or(Line::Fault),
        }
    }

    // The network fails.
    fn fail(&mut self, wanted: Wanted) -> Input
        ensures input { result ≡ Input.Fault }
        ensures told { Records (passed_acts self.old) (Told wanted Fault ∷ []) (passed_acts self.new) }
        ensures taking { self.new.taking ≡ self.old.taking }
    {
        self.note(Ok(Passed::Told {
            wanted,
            line: Line::Fault,
        }));
        Input::Fault
    }
}

impl Network for MemoryNetwork {
    ghost told = { λ n. passed_acts n };

    ghost keeps = { λ n. n.taking.has_log };

    fn next(&mut self, wanted: Wanted, buffer: &mut [u8]) -> Input {
        let line = self.next_line(wanted.hears);
        let Some(input) = tell(&line, buffer) else {
            return self.fail(wanted);
        };
        self.note(Ok(Passed::Told { wanted, line }));
        input
    }

    fn is_logged(&self) -> bool {
        self.taking.has_log
    }

    fn log(&mut self, rows: &[u8]) -> bool {
        let whole = !self.taking.log_fails;
        let made = logged(self.alloc, rows, whole);
        self.note(made);
        whole
    }

    fn send(&mut self, to: Endpoint, header: [u8; 8], frame: &[u8]) {
        let made = sent(self.alloc, to, &header, frame);
        self.note(made);
    }

    fn count(&mut self, why: Dropped) {
        self.note(Ok(Passed::Dropped(why)));
    }

    fn write(&mut self, bytes: &[u8]) -> Written {
        let taken = self.taking.most.min(bytes.len());
        let failed = self.taking.fails;
        let made = written(self.alloc, bytes, taken, failed);
        self.note(made);
        Written { taken, failed }
    }

    fn close(&mut self) {
        self.note(Ok(Passed::Closed));
    }
}
