//! Pairs of states whose runs are done, or go on alike.
ghost use Rattle.std.specs.Prelude.{◌≡◌, [], IfOk};
ghost use Rattle.of_datapath.specs.{Datapath.world_of, Numbers.forwarding_of};
ghost use Rattle.of_diff.specs.{declared.pair.Next.TheVariants.Alike as AllAlike, Reasons.AreSettled, SoFar.NextIs};
ghost use Rattle.of_alike.specs.{Agreeing.AgreeFrom, Agreeing.GoOnAlike, Emitting.LeaveAlike, SamePorts.SamePorts};
ghost use Rattle.of_symbolic_run.specs.Received.{AreReceived};

use crate::ending::try_pair;
use crate::pair::{Next, Pair};
use of_alike::{Compared, other_ingress};
use of_classifier::Lookup;
use of_datapath::Datapath;
use of_symbolic_run::ended_states_give_runs;
use std::alloc::{AllocError, Global};

// What was sent decides: if it leaves alike, all frames are treated alike; else one of them runs on both switches.
fn compare_sent<'a, L: Lookup>(
    alloc: Global,
    first: &Datapath<L>,
    second: &Datapath<L>,
    compared: Compared,
    pair: Pair<'a>,
    steps: usize,
) -> Result<Next<'a>, AllocError>
    requires ports { SamePorts first.now.ports second.now.ports }
    requires received { AreReceived (world_of (forwarding_of first.now)).ports pair.frames }
    requires settled { AreSettled (world_of (forwarding_of first.now)) (world_of (forwarding_of second.now)) pair }
    requires alike { LeaveAlike compared (world_of (forwarding_of first.now)).ports pair.frames pair.first.emitted.items pair.second.emitted.items →
        NextIs compared (world_of (forwarding_of first.now)) (world_of (forwarding_of second.now)) steps pair AllAlike }
    ensures { IfOk result (NextIs compared (world_of (forwarding_of first.now)) (world_of (forwarding_of second.now)) steps pair.entry) }
{
    first.known_world();
    let ports = first.port_list();
    match other_ingress(
        compared,
        ports,
        &pair.frames,
        &pair.first.emitted,
        &pair.second.emitted,
    ) {
        None => Ok(Next::Alike),
        Some(ingress) => try_pair(alloc, first, second, compared, pair, ingress, steps),
    }
}

/// Both runs go on alike: if the same was sent, all frames are treated alike; else one of them runs on both switches.
pub fn compare_rests<'a, L: Lookup>(
    alloc: Global,
    first: &Datapath<L>,
    second: &Datapath<L>,
    compared: Compared,
    pair: Pair<'a>,
    table: u8,
    steps: usize,
) -> Result<Next<'a>, AllocError>
    requires ports { SamePorts first.now.ports second.now.ports }
    requires received { AreReceived (world_of (forwarding_of first.now)).ports pair.frames }
    requires agree { AgreeFrom table (world_of (forwarding_of first.now)) (world_of (forwarding_of second.now)) }
    requires alike { GoOnAlike table pair.first pair.second }
    ensures { IfOk result (NextIs compared (world_of (forwarding_of first.now)) (world_of (forwarding_of second.now)) steps pair.entry) }
{
    first.known_world();
    second.known_world();
    compare_sent(alloc, first, second, compared, pair, steps)
}

/// Both runs are done: if the same was sent, all frames are treated alike; else one of them runs on both switches.
pub fn compare_ended<'a, L: Lookup>(
    alloc: Global,
    first: &Datapath<L>,
    second: &Datapath<L>,
    compared: Compared,
    pair: Pair<'a>,
    steps: usize,
) -> Result<Next<'a>, AllocError>
    requires ports { SamePorts first.now.ports second.now.ports }
    requires received { AreReceived (world_of (forwarding_of first.now)).ports pair.frames }
    requires first { pair.first.tasks.items ≡ [] }
    requires second { pair.second.tasks.items ≡ [] }
    ensures { IfOk result (NextIs compared (world_of (forwarding_of first.now)) (world_of (forwarding_of second.now)) steps pair.entry) }
{
    first.known_world();
    second.known_world();
    ended_states_give_runs();
    compare_sent(alloc, first, second, compared, pair, steps)
}
