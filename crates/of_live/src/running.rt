//! Turns of a switch on a network, one after the other.
ghost use Rattle.std.specs.Prelude.{◌≡◌, length};
ghost use Rattle.of_replay.specs.Stepping.{ended_so};
ghost use Rattle.of_live.specs.Ends.{Lives};

use crate::Network;
use crate::state::Live;
use crate::work::Work;
use of_classifier::Lookup;
use of_replay::{Ended, Halt, READ_SIZE, ended_by, zeros};
use std::alloc::Global;

// This many turns, one after the other.
fn take_turns<L: Lookup, N: Network>(
    live: &mut Live<L>,
    network: &mut N,
    turns: u64,
    buffer: &mut [u8],
    work: &mut Work,
) -> Result<(), Halt>
    requires room { length buffer.old ≡ 65536 }
    ensures { Lives (ended_so result) turns (N.keeps network.old) live.old live.new (N.told network.old) (N.told network.new) }
{
    for _ in 0..turns {
        live.turn(network, buffer, work)?;
    }
    Ok(())
}

/// Runs a switch on a network, for this many turns.
///
/// In a turn something comes: the clock tells the time, and the rows of the event file that are due happen; a datagram is a
/// frame of the port of its network, or is dropped; a controller connects, says something, or is gone; somebody writes a row.
/// The rows of what happens are written to the log, if there is one. Then what that gives goes out: the frames as
/// datagrams to the peers of their ports, and the answers to the connection.
///
/// Bytes of the controller wait until they are handled: messages are, one after the other, while less than 1 MiB waits for the
/// connection, 64 in a turn at most, and none in one in which a frame comes.
///
/// What the connection does not take waits for it. One that takes nothing for ten seconds, for which more than 256 MiB wait, or
/// that fails, is closed, and the switch learns that it is lost when the next input comes.
///
/// A network that fails ends as `ReadFault`, a log that cannot be written as `WriteFault`. Of a turn that ends so, or in which
/// memory runs out, nothing goes out.
pub fn live<L: Lookup, N: Network>(
    alloc: Global,
    live: &mut Live<L>,
    network: &mut N,
    turns: u64,
) -> Ended
    ensures { Lives result turns (N.keeps network.old) live.old live.new (N.told network.old) (N.told network.new) }
{
    let Ok(mut buffer) = zeros(alloc, READ_SIZE) else {
        return Ended::NoMemory;
    };
    let mut work = Work::new(alloc);
    ended_by(take_turns(live, network, turns, &mut buffer, &mut work))
}
