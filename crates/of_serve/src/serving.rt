//! Serving controllers.
ghost use Rattle.std.specs.Prelude.{◌≡◌, ◌<◌, ◌≤◌, ◌↔◌, ◌+◌, length, OnOk};
ghost use Rattle.of_switch.specs.State.{State, start};
ghost use Rattle.of_serve.specs.{Turns.nothing_pending, Turns.standing, Serves.Serves, Serves.tells, Gathering.CountsAcceptFailure, Gathering.WriteFails};
ghost use Rattle.of_replay.specs.Stepping.{ended_so};

use crate::gathering::Gathering;
use crate::peers::{Clock, Peers};
use crate::rows::Rows;
use crate::turns::turn;
use of_classifier::Lookup;
use of_replay::{Ended, Halt, READ_SIZE, Sink, ended_by, zeros};
use of_switch::{Event, Switch};
use std::alloc::{AllocError, Global};

// This many turns, one after the other.
fn take_turns<L: Lookup, P: Peers, C: Clock, K: Sink>(
    gathering: &mut Gathering<L>,
    rows: &mut Rows,
    peers: &mut P,
    clock: &mut C,
    turns: u32,
    buffer: &mut [u8],
    out: &mut K,
) -> Result<(), Halt>
    requires empty { gathering.old ≡ nothing_pending gathering.old.state }
    requires room { length buffer.old ≡ 65536 }
    requires fresh { (P.accepts peers.old ≡ 0) × (P.reads peers.old ≡ 0) }
    requires whole { (P.accept_failures peers.old ≡ 0) × (P.write_failures peers.old ≡ 0) }
    requires well { K.failures out.old ≡ 0 }
    ensures serves { Serves (ended_so result) turns (standing gathering.old.state rows.old) gathering.new.state
        (tells (P.came peers.old) (C.times clock.old) (P.took peers.old) (P.write_failures peers.old) (K.taken out.old))
        (tells (P.came peers.new) (C.times clock.new) (P.took peers.new) (P.write_failures peers.new) (K.taken out.new)) }
    ensures done { OnOk result (P.accepts peers.new + P.reads peers.new ≡ turns) }
    ensures most { P.accepts peers.new + P.reads peers.new ≤ turns }
    ensures failures { CountsAcceptFailure result 0 (P.accept_failures peers.new) }
    ensures writes { WriteFails result (K.failures out.new) }
{
    for _ in 0..turns {
        turn(gathering, rows, peers, clock, buffer, out)?;
    }
    Ok(())
}

/// Serves controllers on this switch, one at a time, for this many turns (OpenFlow 1.3.5, 6.3), and hands it back.
///
/// A turn without a connection is an accept; where a peer connected, the switch says HELLO. Any other turn asks the
/// clock, which gives a moment, plays the rows that are due, reads once and handles what came; all answers then go
/// out, and behind them the lines of the frames that were sent (`s PORT HEX`) go to the output. A row is due when the
/// clock has reached every moment among the rows before it. The end of a stream is the loss of its connection, and so
/// are a read and a write that fail: after a failed write nothing more is written to that connection.
///
/// An accept that fails ends as `ReadFault`, a write to the output that fails as `WriteFault`. Where memory runs out in a
/// turn, what its events gave until then is written. The event, or the message of a chunk, at which it ran out may have
/// happened nevertheless: then there was no memory for what it gave, and nothing of it is written.
pub fn serve_on<L: Lookup, P: Peers, C: Clock, K: Sink>(
    alloc: Global,
    switch: Switch<L>,
    peers: &mut P,
    clock: &mut C,
    rows: Vec<Event>,
    turns: u32,
    out: &mut K,
) -> (Ended, Switch<L>)
    requires fresh { (P.accepts peers.old ≡ 0) × (P.reads peers.old ≡ 0) }
    requires whole { (P.accept_failures peers.old ≡ 0) × (P.write_failures peers.old ≡ 0) }
    requires well { K.failures out.old ≡ 0 }
    ensures serves { Serves result.0 turns (standing switch rows.items) result.1
        (tells (P.came peers.old) (C.times clock.old) (P.took peers.old) (P.write_failures peers.old) (K.taken out.old))
        (tells (P.came peers.new) (C.times clock.new) (P.took peers.new) (P.write_failures peers.new) (K.taken out.new)) }
    ensures done { result.0 ≡ Ended.Done → P.accepts peers.new + P.reads peers.new ≡ turns }
    ensures most { P.accepts peers.new + P.reads peers.new ≤ turns }
    ensures read_fault { (result.0 ≡ Ended.ReadFault) ↔ (0 < P.accept_failures peers.new) }
    ensures write_fault { (result.0 ≡ Ended.WriteFault) ↔ (0 < K.failures out.new) }
{
    let Ok(mut buffer) = zeros(alloc, READ_SIZE) else {
        return (Ended::NoMemory, switch);
    };
    let mut gathering = Gathering::new(alloc, switch);
    let mut rows = Rows::new(rows);
    let ended = ended_by(take_turns(
        &mut gathering,
        &mut rows,
        peers,
        clock,
        turns,
        &mut buffer,
        out,
    ));
    (ended, gathering.into_switch())
}

/// Serves controllers on a new switch with this datapath_id, as `serve_on` does.
pub fn serve<L: Lookup, P: Peers, C: Clock, K: Sink>(
    alloc: Global,
    dpid: u64,
    peers: &mut P,
    clock: &mut C,
    rows: Vec<Event>,
    turns: u32,
    out: &mut K,
) -> Ended
    requires fresh { (P.accepts peers.old ≡ 0) × (P.reads peers.old ≡ 0) }
    requires whole { (P.accept_failures peers.old ≡ 0) × (P.write_failures peers.old ≡ 0) }
    requires well { K.failures out.old ≡ 0 }
    ensures serves { (state : State) × Serves result turns (standing (start dpid) rows.items) state
        (tells (P.came peers.old) (C.times clock.old) (P.took peers.old) (P.write_failures peers.old) (K.taken out.old))
        (tells (P.came peers.new) (C.times clock.new) (P.took peers.new) (P.write_failures peers.new) (K.taken out.new)) }
    ensures done { result ≡ Ended.Done → P.accepts peers.new + P.reads peers.new ≡ turns }
    ensures most { P.accepts peers.new + P.reads peers.new ≤ turns }
    ensures read_fault { (result ≡ Ended.ReadFault) ↔ (0 < P.accept_failures peers.new) }
    ensures write_fault { (result ≡ Ended.WriteFault) ↔ (0 < K.failures out.new) }
{
    match Switch::<L>::new(alloc, dpid) {
        Ok(switch) => serve_on(alloc, switch, peers, clock, rows, turns, out).0,
        Err(AllocError) => Ended::NoMemory,
    }
}
