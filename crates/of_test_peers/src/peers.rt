//! Peers and a clock in memory, of which each accept, read and write can be made to fail.
ghost use Rattle.std.specs.Prelude.{◌≡◌, ◌++◌, ◌+◌, ◌<◌, ◌≤◌, ◌^◌, ◌∷◌, [], None, Some, length, slice_get, take, min, IfOk, OnOk, OnErr};
ghost use Rattle.std.specs.{Bool.OnTrue, Option.option_map};

use of_replay::{Reading, Writing};
use of_serve::{Accepted, Clock, Peers};
use of_wire::Bytes;
use std::alloc::{AllocError, Global};
use std::marker::Model;

/// What one accept or one read of a script answers.
#[derive(Drop)]
pub enum Line {
    /// A peer connects.
    Open,
    /// Nobody connects, or nothing is received.
    Idle,
    /// These bytes are received, one at least.
    Gives(Bytes),
    /// There are no more bytes.
    End,
    /// The accept or the read fails.
    Fault,
}

/// Which calls of peers fail, beside those that their script says. Accepts, reads and writes are counted together, from 1.
#[derive(Clone, Copy, PartialEq, Eq)]
pub enum Failing {
    /// None of them.
    Never,
    /// That call.
    Once(u64),
    /// That call and each after it.
    From(u64),
}

impl Failing {
    fn fails(self, call: u64) -> bool {
        match self {
            Failing::Never => false,
            Failing::Once(number) => call == number,
            Failing::From(number) => call >= number,
        }
    }
}

// What a connection took.
#[derive(Drop)]
struct Taken {
    bytes: Vec<u8>,
}

// Puts bytes at the start of a buffer, where there are some and they fit.
fn fill(buffer: &mut [u8], bytes: &[u8]) -> bool
    ensures fits { OnTrue result ((0 < length bytes.now) × (length bytes.now ≤ length buffer.old)) }
    ensures filled { OnTrue result (take (length bytes.now) buffer.new ≡ bytes.now) }
{
    if bytes.is_empty() || bytes.len() > buffer.len() {
        return false;
    }
    buffer[..bytes.len()].copy_from_slice(bytes);
    true
}

impl Model for Taken {
    ghost use Rattle.std.specs.Prelude.{ℕ, List};

    ghost Value = { List ℕ };

    ghost view = { λ t. t.bytes.items };
}

/// Peers whose accepts and reads answer the lines of a script, one after the other. It records what they answered, and
/// what each connection took.
///
/// An accept passes over what the connection before it had still to give. An accept or a read fails where `Failing` says
/// so, where the next line does not fit it, as a read where a peer connects, where there is no further line, and where
/// memory runs out. It takes the place of the next line.
#[derive(Drop)]
pub struct MemoryPeers {
    script: Vec<Line>,
    /// How many lines were answered.
    at: usize,
    failing: Failing,
    /// How many calls there were, or the greatest number where there were more.
    calls: u64,
    accepts: u64,
    reads: u64,
    accept_failures: u64,
    /// How many accepts and reads there were after the last line.
    late_accepts: u64,
    late_reads: u64,
    /// What connections took, the newest first.
    taken: Vec<Taken>,
    /// How many bytes a write takes at most.
    chunk: usize,
    write_failures: u64,
    alloc: Global,
    ghost within: { at ≤ length script.items },
    ghost ended: { at < length script.items → late_accepts + late_reads ≡ 0 },
    ghost some: { 0 < chunk },
    ghost few: { accept_failures ≤ accepts },
    ghost few_late: { (late_accepts ≤ accepts) × (late_reads ≤ reads) },
}

impl MemoryPeers {
    ghost use Rattle.of_test_peers.specs.Peers.{peers_came};

    /// Peers of that script, whose writes take `chunk` bytes at most.
    pub fn new(alloc: Global, script: Vec<Line>, chunk: usize, failing: Failing) -> MemoryPeers
        requires { 0 < chunk }
        ensures script { result.script.items ≡ script.items }
        ensures settings { (result.chunk ≡ chunk) × (result.failing ≡ failing) }
        ensures told { peers_came result ≡ [] }
        ensures taken { result.taken.items ≡ [] }
        ensures counts { (result.accepts ≡ 0) × (result.reads ≡ 0) × (result.accept_failures ≡ 0) × (result.write_failures ≡ 0) }
    {
        MemoryPeers {
            script,
            at: 0,
            failing,
            calls: 0,
            accepts: 0,
            reads: 0,
            accept_failures: 0,
            late_accepts: 0,
            late_reads: 0,
            taken: Vec::new(alloc),
            chunk,
            write_failures: 0,
            alloc,
        }
    }

    /// The bytes that the connection of that place took, the newest first.
    pub fn taken(&self, place: usize) -> Option<&[u8]>
        ensures { option_map (λ bytes. bytes.now) result ≡ slice_get self.now.taken.items place }
    {
        Some(&self.taken.get(place)?.bytes)
    }
}

impl MemoryPeers {
    ghost use Rattle.std.specs.Bool.{OnTrue, OnFalse};
    ghost use Rattle.of_serve.specs.Told.{Answered, onto};
    ghost use Rattle.of_replay.specs.Told.{Failed};
    ghost use Rattle.of_test_peers.specs.Peers.{peers_came};

    // The newest connection takes bytes, unless there is none or memory runs out.
    fn take(&mut self, bytes: &[u8]) -> bool
        ensures took { OnTrue result (self.new.taken.items ≡ onto bytes.now self.old.taken.items) }
        ensures some { OnTrue result (0 < length self.old.taken.items) }
        ensures not { OnFalse result (self.new.taken.items ≡ self.old.taken.items) }
        ensures told { peers_came self.new ≡ peers_came self.old }
        ensures same { (self.new.accepts ≡ self.old.accepts) × (self.new.reads ≡ self.old.reads) × (self.new.accept_failures ≡ self.old.accept_failures) ×
            (self.new.write_failures ≡ self.old.write_failures) }
    {
        match self.taken.first_mut() {
            Some(taken) => taken.bytes.extend_from_slice(bytes).is_ok(),
            None => false,
        }
    }

    // Forgets what the connection before had still to give.
    fn pass_over(&mut self)
        ensures told { peers_came self.new ≡ peers_came self.old }
        ensures taken { self.new.taken.items ≡ self.old.taken.items }
        ensures late { (self.new.late_accepts ≡ self.old.late_accepts) × (self.new.late_reads ≡ self.old.late_reads) }
        ensures same { (self.new.accepts ≡ self.old.accepts) × (self.new.reads ≡ self.old.reads) × (self.new.accept_failures ≡ self.old.accept_failures) ×
            (self.new.write_failures ≡ self.old.write_failures) }
    {
        while let Some(Line::Gives(_) | Line::End) = self.script.get(self.at) {
            let _ = self.script.remove(self.at);
        }
    }

    // A fault takes the place of the next line, if there is one.
    fn spoil(&mut self) -> bool
        ensures spoilt { OnTrue result (peers_came self.new ≡ peers_came self.old ++ Answered Failed ∷ []) }
        ensures ended { OnFalse result ((self.new.at ≡ length self.new.script.items) × (peers_came self.new ≡ peers_came self.old)) }
        ensures taken { self.new.taken.items ≡ self.old.taken.items }
        ensures late { (self.new.late_accepts ≡ self.old.late_accepts) × (self.new.late_reads ≡ self.old.late_reads) }
        ensures same { (self.new.accepts ≡ self.old.accepts) × (self.new.reads ≡ self.old.reads) × (self.new.accept_failures ≡ self.old.accept_failures) ×
            (self.new.write_failures ≡ self.old.write_failures) }
    {
        let place = self.at;
        if place < self.script.len() {
            self.script[place] = Line::Fault;
            self.at += 1;
            true
        } else {
            false
        }
    }

    fn fail_accept(&mut self) -> Accepted
        requires failures { self.old.accept_failures < self.old.accepts }
        requires late { self.old.late_accepts < self.old.accepts }
        ensures fault { result ≡ Accepted.Fault }
        ensures told { peers_came self.new ≡ peers_came self.old ++ Answered Failed ∷ [] }
        ensures failures { self.new.accept_failures ≡ self.old.accept_failures + 1 }
        ensures same { (self.new.accepts ≡ self.old.accepts) × (self.new.reads ≡ self.old.reads) × (self.new.write_failures ≡ self.old.write_failures) ×
            (self.new.taken.items ≡ self.old.taken.items) }
    {
        self.accept_failures += 1;
        if self.spoil() {
            return Accepted::Fault;
        }
        self.late_accepts += 1;
        Accepted::Fault
    }

    fn fail_read(&mut self) -> Reading
        requires { self.old.late_reads < self.old.reads }
        ensures fault { result ≡ Reading.Fault }
        ensures told { peers_came self.new ≡ peers_came self.old ++ Answered Failed ∷ [] }
        ensures same { (self.new.accepts ≡ self.old.accepts) × (self.new.reads ≡ self.old.reads) × (self.new.accept_failures ≡ self.old.accept_failures) ×
            (self.new.write_failures ≡ self.old.write_failures) × (self.new.taken.items ≡ self.old.taken.items) }
    {
        if self.spoil() {
            return Reading::Fault;
        }
        self.late_reads += 1;
        Reading::Fault
    }

    // A connection begins, unless memory runs out.
    fn begin(&mut self) -> bool
        ensures took { OnTrue result (self.new.taken.items ≡ [] ∷ self.old.taken.items) }
        ensures not { OnFalse result (self.new.taken.items ≡ self.old.taken.items) }
        ensures told { (self.new.script.items ≡ self.old.script.items) × (self.new.at ≡ self.old.at) × (self.new.late_accepts ≡ self.old.late_accepts) ×
            (self.new.late_reads ≡ self.old.late_reads) }
        ensures same { (self.new.accepts ≡ self.old.accepts) × (self.new.reads ≡ self.old.reads) × (self.new.accept_failures ≡ self.old.accept_failures) ×
            (self.new.write_failures ≡ self.old.write_failures) }
    {
        let taken = Taken {
            bytes: Vec::new(self.alloc),
        };
        self.taken.insert(0, taken).is_ok()
    }
}

impl Peers for MemoryPeers {
    ghost use Rattle.std.specs.Option.{option_map};
    ghost use Rattle.of_replay.specs.Told.{answer_of, write_count, write_faults, IsReading, IsWriting};
    ghost use Rattle.of_serve.specs.Told.{PeerCame, accept_came, Answered, then_told, accept_faults, then_begun, then_onto};
    ghost use Rattle.of_test_peers.specs.Peers.{peers_came};

    ghost came = { λ p. Some (peers_came p) };

    ghost took = { λ p. Some p.taken.items };

    ghost accepts = { λ p. p.accepts };

    ghost reads = { λ p. p.reads };

    ghost accept_failures = { λ p. p.accept_failures };

    ghost write_failures = { λ p. p.write_failures };

    fn accept(&mut self) -> Accepted {
        self.calls = self.calls.saturating_add(1);
        let fails = self.failing.fails(self.calls);
        self.accepts += 1;
        self.pass_over();
        match self.script.get(self.at) {
            Some(Line::Idle) if !fails => {
                self.at += 1;
                Accepted::Nothing
            }
            Some(Line::Open) if !fails => {
                if self.begin() {
                    self.at += 1;
                    Accepted::Open
                } else {
                    self.fail_accept()
                }
            }
            _ => self.fail_accept(),
        }
    }

    fn read(&mut self, buffer: &mut [u8]) -> Reading {
        self.calls = self.calls.saturating_add(1);
        let fails = self.failing.fails(self.calls);
        self.reads += 1;
        match self.script.get(self.at) {
            Some(Line::Idle) if !fails => {
                self.at += 1;
                Reading::Nothing
            }
            Some(Line::End) if !fails => {
                self.at += 1;
                Reading::End
            }
            Some(Line::Gives(bytes)) if !fails && fill(buffer, bytes.as_slice()) => {
                let count = bytes.as_slice().len();
                self.at += 1;
                Reading::Bytes(count)
            }
            _ => self.fail_read(),
        }
    }

    fn write(&mut self, bytes: &[u8]) -> Writing {
        self.calls = self.calls.saturating_add(1);
        let fails = self.failing.fails(self.calls);
        let count = self.chunk.min(bytes.len());
        if fails {
            self.write_failures += 1;
            return Writing::Fault;
        }
        if self.take(&bytes[..count]) {
            return Writing::Wrote(count);
        }
        self.write_failures += 1;
        Writing::Fault
    }
}

/// A clock in memory: it gives the times of a list, and then the last of them again and again (0 where there is none).
#[derive(Drop)]
pub struct MemoryClock {
    times: Vec<u64>,
    at: usize,
    last: u64,
    ghost within: { at ≤ length times.items },
}

impl MemoryClock {
    pub fn new(times: Vec<u64>) -> MemoryClock
        ensures { (result.times.items ≡ times.items) × (result.at ≡ 0) × (result.last ≡ 0) }
    {
        MemoryClock {
            times,
            at: 0,
            last: 0,
        }
    }
}

impl Clock for MemoryClock {
    ghost times = { λ _. None };

    fn now(&mut self) -> u64 {
        if let Some(time) = self.times.get(self.at) {
            self.last = *time;
            self.at += 1;
        }
        self.last
    }
}
