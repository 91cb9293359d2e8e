//! Runs of frames, and of the packets of PACKET_OUTs.
ghost use Rattle.std.specs.Prelude.{◌≡◌, ◌≤◌, ◌+◌, ◌∷◌, ◌++◌, [], List, true, IsTrue, IfOk, OnOk, OnErr, length};
ghost use Rattle.std.specs.List.{list_all};
ghost use Rattle.of_actions.specs.Supported.{is_supported, are_supported};
ghost use Rattle.of_machine.specs.Rows.{Work, Act as ActWork, Lookup as LookupWork, acts, Task, task};
ghost use Rattle.of_machine.specs.Runs.{Moves, Acts, Breaks, IsRun, IsPrefixOfRun, run_of, point};
ghost use Rattle.of_machine.specs.{Growth.AllShort, Outside.is_to_tables, Sound.IsSound, Weights.frame_step_bound, Weights.packet_out_step_bound};

use crate::data::{Outcome, Packet, Step};
use crate::machine::{Going, act, frame_is_known};
use crate::tables::pipeline;
use crate::world::{StepLog, World};
use of_actions::Action;
use of_wire::limits::{LONGEST_CHAIN, OFPP_TABLE};
use std::alloc::{AllocError, Global};

/// Runs a packet from table 0 to its end (OpenFlow 1.3.5, 5.1), in at most 143,271,552 steps.
///
/// Where memory runs out, the log has the first steps, and tables, groups and ports are as before.
pub fn run<W: World, S: StepLog>(
    alloc: Global,
    world: &mut W,
    mut packet: Packet<'_>,
    log: &mut S,
) -> Result<Outcome, AllocError>
    requires { packet.action_set ≡ [] }
    ensures kept { W.view world.new ≡ W.view world.old }
    ensures content { W.content world.new ≡ W.content world.old }
    ensures ok { IfOk result (λ outcome. IsRun (W.view world.old) S.KEEPS packet.entry (LookupWork 0 ∷ []) outcome (S.list log.old) (S.list log.new)) }
    ensures items { IfOk result (λ outcome. outcome.items.items ≡ (run_of (W.view world.old) packet.entry (LookupWork 0 ∷ [])).items) }
    ensures counts { IfOk result (λ outcome. outcome.counts.items ≡ (run_of (W.view world.old) packet.entry (LookupWork 0 ∷ [])).counts) }
    ensures lines { OnOk result (S.KEEPS ≡ true → S.list log.new ≡ S.list log.old ++ (run_of (W.view world.old) packet.entry (LookupWork 0 ∷ [])).lines) }
    ensures grown { IfOk result (λ outcome. length packet.entry.frame ≤ 9216 → AllShort 13328 outcome.items.items) }
    ensures bound { S.KEEPS ≡ true → length (S.list log.new) ≤ length (S.list log.old) + frame_step_bound }
    ensures err { OnErr result (IsPrefixOfRun (W.view world.old) S.KEEPS packet.entry (LookupWork 0 ∷ []) (S.list log.old) (S.list log.new)) }
{
    world.known();
    frame_is_known(&packet.frame);
    let mut outcome = Outcome::new(alloc);
    pipeline(world, &mut packet, &mut outcome, log)?;
    Ok(outcome)
}

/// Runs the actions of a PACKET_OUT (OpenFlow 1.3.5, 7.3.7). An OUTPUT to TABLE makes a copy that begins at table 0.
/// It takes at most 9,169,379,393 steps, which are more than 32 bits count.
///
/// Where memory runs out, the log has the first steps, and tables, groups and ports are as before.
pub fn run_actions<W: World, S: StepLog>(
    alloc: Global,
    world: &mut W,
    mut packet: Packet<'_>,
    actions: &[Action],
    log: &mut S,
) -> Result<Outcome, AllocError>
    requires empty { packet.action_set ≡ [] }
    requires served { IsTrue (are_supported true actions.now) }
    ensures kept { W.view world.new ≡ W.view world.old }
    ensures content { W.content world.new ≡ W.content world.old }
    ensures ok { IfOk result (λ outcome. IsRun (W.view world.old) S.KEEPS packet.entry (acts actions.now) outcome (S.list log.old) (S.list log.new)) }
    ensures items { IfOk result (λ outcome. outcome.items.items ≡ (run_of (W.view world.old) packet.entry (acts actions.now)).items) }
    ensures counts { IfOk result (λ outcome. outcome.counts.items ≡ (run_of (W.view world.old) packet.entry (acts actions.now)).counts) }
    ensures lines { OnOk result (S.KEEPS ≡ true → S.list log.new ≡ S.list log.old ++ (run_of (W.view world.old) packet.entry (acts actions.now)).lines) }
    ensures grown { IfOk result (λ outcome. length packet.entry.frame ≤ 9216 → AllShort 13584 outcome.items.items) }
    ensures bound { S.KEEPS ≡ true → length (S.list log.new) ≤ length (S.list log.old) + packet_out_step_bound }
    ensures err { OnErr result (IsPrefixOfRun (W.view world.old) S.KEEPS packet.entry (acts actions.now) (S.list log.old) (S.list log.new)) }
{
    world.known();
    frame_is_known(&packet.frame);
    let mut outcome = Outcome::new(alloc);
    act_all_outside(world, actions, &mut packet, &mut outcome, log)?;
    log.step(Step::End)?;
    Ok(outcome)
}

// The actions of a PACKET_OUT, in their order, as far as the packet's work goes on.
fn act_all_outside<W: World, S: StepLog>(
    world: &mut W,
    actions: &[Action],
    packet: &mut Packet<'_>,
    outcome: &mut Outcome,
    log: &mut S,
) -> Result<Going, AllocError>
    requires sound { IsSound (W.view world.old) }
    requires served { IsTrue (list_all (is_supported true) actions.now) }
    ensures kept { W.view world.new ≡ W.view world.old }
    ensures content { W.content world.new ≡ W.content world.old }
    ensures ok { IfOk result (λ going. Acts (W.view world.old) S.KEEPS packet.old (acts actions.now) outcome.old (S.list log.old) going packet.new outcome.new
        (S.list log.new)) }
    ensures err { OnErr result (Breaks (W.view world.old) S.KEEPS packet.old (acts actions.now) outcome.old (S.list log.old) (S.list log.new)) }
{
    for action in actions {
        match act_outside(world, *action, packet, outcome, log)? {
            Going::Continues => {}
            Going::Ended => return Ok(Going::Ended),
        }
    }
    Ok(Going::Continues)
}

// One action of a PACKET_OUT: it may give a copy of the packet to the tables.
fn act_outside<W: World, S: StepLog>(
    world: &mut W,
    action: Action,
    packet: &mut Packet<'_>,
    outcome: &mut Outcome,
    log: &mut S,
) -> Result<Going, AllocError>
    requires sound { IsSound (W.view world.old) }
    requires served { IsTrue (is_supported true action) }
    ensures kept { W.view world.new ≡ W.view world.old }
    ensures content { W.content world.new ≡ W.content world.old }
    ensures ok { IfOk result (λ going. Acts (W.view world.old) S.KEEPS packet.old (ActWork action ∷ []) outcome.old (S.list log.old) going packet.new
        outcome.new (S.list log.new)) }
    ensures err { OnErr result (Breaks (W.view world.old) S.KEEPS packet.old (ActWork action ∷ []) outcome.old (S.list log.old) (S.list log.new)) }
{
    if goes_to_tables(action) {
        to_tables(world, action, packet, outcome, log)?;
        Ok(Going::Continues)
    } else {
        act(&*world, LONGEST_CHAIN, action, packet, outcome, log)
    }
}

fn goes_to_tables(action: Action) -> bool
    ensures { result ≡ is_to_tables action }
{
    match action {
        Action::Output { port, .. } => port == OFPP_TABLE,
        _ => false,
    }
}

// A copy with metadata 0 and an empty action set, from the first table on.
fn to_tables<W: World, S: StepLog>(
    world: &mut W,
    action: Action,
    packet: &Packet<'_>,
    outcome: &mut Outcome,
    log: &mut S,
) -> Result<(), AllocError>
    requires sound { IsSound (W.view world.old) }
    requires table { IsTrue (is_to_tables action) }
    ensures kept { W.view world.new ≡ W.view world.old }
    ensures content { W.content world.new ≡ W.content world.old }
    ensures ok { OnOk result ((rest : List Work) (others : List Task) → Moves (W.view world.old) S.KEEPS
        (point (task packet.now (ActWork action ∷ rest) ∷ others) outcome.old (S.list log.old))
        (point (task packet.now rest ∷ others) outcome.new (S.list log.new))) }
    ensures err { OnErr result (Breaks (W.view world.old) S.KEEPS packet.now (ActWork action ∷ []) outcome.old (S.list log.old) (S.list log.new)) }
{
    let mut copy = packet.copy_without_actions();
    copy.metadata = 0;
    log.step(Step::Act(action))?;
    pipeline(world, &mut copy, outcome, log)
}
