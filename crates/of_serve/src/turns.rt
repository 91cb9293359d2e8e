//! Turns: an accept or a read, what it gives, and that written.
ghost use Rattle.std.specs.Prelude.{◌≡◌, ◌≤◌, ◌<◌, ◌^◌, ◌+◌, [], length, OnOk, OnErr, ℕ, List, Option};
ghost use Rattle.of_serve.specs.Gathering.{failed_writes, Counts, CutsReads, CountsAcceptFailure, ServeGoes, HandlesRead, Inputs, IsAnswered, Opens, OrMemory, TakesAnswers, TellsReads, WriteFails};
ghost use Rattle.of_serve.specs.{Turns.nothing_pending, Turns.standing, Serves.tells};

use crate::gathering::Gathering;
use crate::peers::{Accepted, Clock, Peers};
use crate::rows::Rows;
use of_classifier::Lookup;
use of_replay::{Halt, Reading, Sink, Writing, write_all};
use of_switch::Event;
use of_wire::{front_of, rest_from};
use std::alloc::AllocError;

/// Writes all of the bytes to the open connection, and returns true; or a write fails, and nothing more is written.
pub fn write_answers<P: Peers>(peers: &mut P, bytes: &[u8]) -> bool
    requires few { P.write_failures peers.old < 2 ^ 63 }
    ensures takes { TakesAnswers result bytes.now (P.took peers.old) (P.took peers.new) }
    ensures failures { P.write_failures peers.new ≡ P.write_failures peers.old + failed_writes result }
    ensures came { P.came peers.new ≡ P.came peers.old }
    ensures same { (P.accepts peers.new ≡ P.accepts peers.old) × (P.reads peers.new ≡ P.reads peers.old) ×
        (P.accept_failures peers.new ≡ P.accept_failures peers.old) }
{
    let mut at = 0;
    while at < bytes.len() {
        match peers.write(rest_from(bytes, at)) {
            Writing::Wrote(n) => at += n,
            Writing::Fault => return false,
        }
    }
    true
}

/// Reads once and handles what came. The end of the stream is the loss of the connection, and so is a read that fails.
pub fn listen<L: Lookup, P: Peers>(
    gathering: &mut Gathering<L>,
    peers: &mut P,
    buffer: &mut [u8],
) -> Result<(), AllocError>
    requires room { length buffer.old ≡ 65536 }
    requires few { P.reads peers.old < 2 ^ 63 }
    ensures hears { HandlesRead result gathering.old gathering.new (P.came peers.old) (P.came peers.new) }
    ensures took { P.took peers.new ≡ P.took peers.old }
    ensures reads { P.reads peers.new ≡ P.reads peers.old + 1 }
    ensures same { (P.accepts peers.new ≡ P.accepts peers.old) × (P.accept_failures peers.new ≡ P.accept_failures peers.old) ×
        (P.write_failures peers.new ≡ P.write_failures peers.old) }
{
    match peers.read(buffer) {
        Reading::Bytes(n) => gathering.hear(front_of(buffer, n)),
        Reading::Nothing => Ok(()),
        Reading::End | Reading::Fault => {
            gathering.lose();
            Ok(())
        }
    }
}

// A turn with a connection: the clock, the rows of the file that are due, and one read.
fn read_turn<L: Lookup, P: Peers, C: Clock>(
    gathering: &mut Gathering<L>,
    rows: &mut Rows,
    peers: &mut P,
    clock: &mut C,
    buffer: &mut [u8],
) -> Result<(), AllocError>
    requires room { length buffer.old ≡ 65536 }
    requires few { P.accepts peers.old + P.reads peers.old < 2 ^ 63 }
    ensures reads { OnOk result (TellsReads gathering.old gathering.new rows.old rows.new (P.came peers.old) (P.came peers.new) (C.times clock.old)
        (C.times clock.new)) }
    ensures cuts { OnErr result (CutsReads gathering.old gathering.new rows.old (P.came peers.old) (P.came peers.new) (C.times clock.old) (C.times clock.new)) }
    ensures took { P.took peers.new ≡ P.took peers.old }
    ensures counts { OnOk result (P.reads peers.new ≡ P.reads peers.old + 1) }
    ensures count { (P.reads peers.old ≤ P.reads peers.new) × (P.reads peers.new ≤ P.reads peers.old + 1) }
    ensures same { (P.accepts peers.new ≡ P.accepts peers.old) × (P.accept_failures peers.new ≡ P.accept_failures peers.old) ×
        (P.write_failures peers.new ≡ P.write_failures peers.old) }
{
    let now = clock.now();
    gathering.play(&Event::Moment(now))?;
    gathering.due(now, rows)?;
    listen(gathering, peers, buffer)
}

// A turn without a connection.
fn accept_turn<L: Lookup, P: Peers>(gathering: &mut Gathering<L>, peers: &mut P) -> Result<(), Halt>
    requires few { P.accepts peers.old + P.reads peers.old < 2 ^ 63 }
    ensures opens { Opens result gathering.old gathering.new (P.came peers.old) (P.came peers.new) (P.took peers.old) (P.took peers.new) }
    ensures accepts { P.accepts peers.new ≡ P.accepts peers.old + 1 }
    ensures failures { CountsAcceptFailure result (P.accept_failures peers.old) (P.accept_failures peers.new) }
    ensures same { (P.reads peers.new ≡ P.reads peers.old) × (P.write_failures peers.new ≡ P.write_failures peers.old) }
{
    match peers.accept() {
        Accepted::Open => or_memory(gathering.play(&Event::Connect)),
        Accepted::Nothing => Ok(()),
        Accepted::Fault => Err(Halt::Read),
    }
}

fn or_memory(done: Result<(), AllocError>) -> Result<(), Halt>
    ensures { OrMemory done result }
{
    match done {
        Ok(()) => Ok(()),
        Err(AllocError) => Err(Halt::Memory),
    }
}

// The accept or the read of a turn, and what it gives.
fn input<L: Lookup, P: Peers, C: Clock>(
    gathering: &mut Gathering<L>,
    rows: &mut Rows,
    peers: &mut P,
    clock: &mut C,
    buffer: &mut [u8],
) -> Result<(), Halt>
    requires empty { gathering.old ≡ nothing_pending gathering.old.state }
    requires room { length buffer.old ≡ 65536 }
    requires few { P.accepts peers.old + P.reads peers.old < 2 ^ 63 }
    ensures inputs { (wrote : Option (List ℕ)) → Inputs result (standing gathering.old.state rows.old) gathering.new rows.new
        (tells (P.came peers.old) (C.times clock.old) (P.took peers.old) (P.write_failures peers.old) wrote)
        (tells (P.came peers.new) (C.times clock.new) (P.took peers.new) (P.write_failures peers.new) wrote) }
    ensures counts { Counts result (P.accepts peers.old + P.reads peers.old) (P.accepts peers.new + P.reads peers.new) }
    ensures failures { CountsAcceptFailure result (P.accept_failures peers.old) (P.accept_failures peers.new) }
    ensures same { P.write_failures peers.new ≡ P.write_failures peers.old }
{
    if gathering.is_connected() {
        or_memory(read_turn(gathering, rows, peers, clock, buffer))
    } else {
        accept_turn(gathering, peers)
    }
}

// Writes the answers. A write that fails is the loss of the connection.
fn answer<L: Lookup, P: Peers>(gathering: &mut Gathering<L>, peers: &mut P)
    requires few { P.write_failures peers.old < 2 ^ 63 }
    ensures answered { IsAnswered gathering.old gathering.new (P.took peers.old) (P.took peers.new) (P.write_failures peers.old) (P.write_failures peers.new) }
    ensures came { P.came peers.new ≡ P.came peers.old }
    ensures failures { (P.write_failures peers.old ≤ P.write_failures peers.new) × (P.write_failures peers.new ≤ P.write_failures peers.old + 1) }
    ensures same { (P.accepts peers.new ≡ P.accepts peers.old) × (P.reads peers.new ≡ P.reads peers.old) ×
        (P.accept_failures peers.new ≡ P.accept_failures peers.old) }
{
    if !write_answers(peers, gathering.answers()) {
        gathering.lose();
    }
}

/// A turn: an accept where there is no connection, and else a read; what it gives is written, also where memory runs out.
pub fn turn<L: Lookup, P: Peers, C: Clock, K: Sink>(
    gathering: &mut Gathering<L>,
    rows: &mut Rows,
    peers: &mut P,
    clock: &mut C,
    buffer: &mut [u8],
    out: &mut K,
) -> Result<(), Halt>
    requires empty { gathering.old ≡ nothing_pending gathering.old.state }
    requires room { length buffer.old ≡ 65536 }
    requires few { P.accepts peers.old + P.reads peers.old < 2 ^ 63 }
    requires few_failures { P.write_failures peers.old < 2 ^ 63 }
    requires well { K.failures out.old ≡ 0 }
    ensures goes { ServeGoes result (standing gathering.old.state rows.old) gathering.new rows.new
        (tells (P.came peers.old) (C.times clock.old) (P.took peers.old) (P.write_failures peers.old) (K.taken out.old))
        (tells (P.came peers.new) (C.times clock.new) (P.took peers.new) (P.write_failures peers.new) (K.taken out.new)) }
    ensures counts { Counts result (P.accepts peers.old + P.reads peers.old) (P.accepts peers.new + P.reads peers.new) }
    ensures failures { CountsAcceptFailure result (P.accept_failures peers.old) (P.accept_failures peers.new) }
    ensures write_failures { P.write_failures peers.new ≤ P.write_failures peers.old + 1 }
    ensures writes { WriteFails result (K.failures out.new) }
{
    let learned = input(gathering, rows, peers, clock, buffer);
    if let Err(Halt::Read) = learned {
        return learned;
    }
    answer(gathering, peers);
    if !write_all(out, gathering.lines()) {
        return Err(Halt::Write);
    }
    gathering.clear();
    learned
}
