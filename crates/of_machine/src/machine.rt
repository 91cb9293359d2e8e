//! Actions, groups and action sets.
ghost use Rattle.std.specs.Prelude.{◌≡◌, ◌≤◌, ◌+◌, ◌∷◌, ◌++◌, [], List, Some, false, IsTrue, IfOk, OnOk, OnErr, length, map};
ghost use Rattle.std.specs.List.{list_all};
ghost use Rattle.of_actions.specs.Supported.{is_supported};
ghost use Rattle.of_rewrite.specs.Frames.{IsFrame};
ghost use Rattle.of_machine.specs.Rows.{Work, RunSet, Act as ActWork, acts, Task, task, copies};
ghost use Rattle.of_machine.specs.Runs.{Moves, Acts, Ends, Breaks, AllEnd, AllFail, point};
ghost use Rattle.of_machine.specs.{Sound.IsSound, Sound.IsBelow, Sound.AllBelow, Sound.AllBuckets, TheWorld.TheWorld};

use crate::data::{Count, Outcome, Packet, Step};
use crate::emit::{emit, to_controller};
use crate::packet_frame::PacketFrame;
use crate::world::{StepLog, World};
use of_actions::Action;
use of_rewrite::Ttl;
use of_wire::PacketInReason;
use std::alloc::AllocError;

/// Whether a packet's work goes on.
#[derive(Clone, Copy)]
pub(crate) enum Going {
    Continues,
    Ended,
}

/// One action; `levels` groups may be in the longest chain that it begins.
#[cycle(machine)]
pub(crate) fn act<W: World, S: StepLog>(
    world: &W,
    levels: u8,
    action: Action,
    packet: &mut Packet<'_>,
    outcome: &mut Outcome,
    log: &mut S,
) -> Result<Going, AllocError>
    requires sound { IsSound (W.view world.now) }
    requires served { IsTrue (is_supported false action) }
    requires below { IsBelow (W.view world.now) (levels + 1) action }
    ensures ok { IfOk result (λ going. Acts (W.view world.now) S.KEEPS packet.old (ActWork action ∷ []) outcome.old (S.list log.old) going packet.new
        outcome.new (S.list log.new)) }
    ensures err { OnErr result (Breaks (W.view world.now) S.KEEPS packet.old (ActWork action ∷ []) outcome.old (S.list log.old) (S.list log.new)) }
{
    match action {
        Action::Output { port, max_len } => {
            emit(world.ports(), port, max_len, packet, outcome)?;
            log.step(Step::Act(action))?;
            Ok(Going::Continues)
        }
        Action::Group(group) => {
            to_group(world, levels, group, packet, outcome, log)?;
            Ok(Going::Continues)
        }
        Action::DecNwTtl => age(packet, outcome, log),
        _ => {
            packet.frame.rewrite(*outcome.items.allocator(), action)?;
            log.step(Step::Act(action))?;
            Ok(Going::Continues)
        }
    }
}

// DEC_NW_TTL.
fn age<S: StepLog>(
    packet: &mut Packet<'_>,
    outcome: &mut Outcome,
    log: &mut S,
) -> Result<Going, AllocError>
    ensures ok { IfOk result (λ going. (w : TheWorld) → Acts w S.KEEPS packet.old (ActWork Action.DecNwTtl ∷ []) outcome.old (S.list log.old) going packet.new
        outcome.new (S.list log.new)) }
    ensures err { OnErr result ((w : TheWorld) → Breaks w S.KEEPS packet.old (ActWork Action.DecNwTtl ∷ []) outcome.old (S.list log.old) (S.list log.new)) }
{
    frame_is_known(&packet.frame);
    match packet.frame.dec_ttl(*outcome.items.allocator())? {
        Ttl::Expired => {
            to_controller(PacketInReason::InvalidTtl, None, packet, outcome)?;
            log.step(Step::TtlExpired)?;
            Ok(Going::Ended)
        }
        Ttl::Done | Ttl::Absent => {
            log.step(Step::Act(Action::DecNwTtl))?;
            Ok(Going::Continues)
        }
    }
}

// A frame has at least 14 bytes, each below 256.
pub(crate) fn frame_is_known(frame: &PacketFrame<'_>)
    ensures { IsFrame frame.now }
{
    bytes_are_known(frame.bytes());
}

fn bytes_are_known(bytes: &[u8])
    requires { 14 ≤ length bytes.now }
    ensures { IsFrame bytes.now }
{}

/// Actions in their order, as far as the packet's work goes on.
#[cycle(machine)]
pub(crate) fn act_all<W: World, S: StepLog>(
    world: &W,
    levels: u8,
    actions: &[Action],
    packet: &mut Packet<'_>,
    outcome: &mut Outcome,
    log: &mut S,
) -> Result<Going, AllocError>
    requires sound { IsSound (W.view world.now) }
    requires served { IsTrue (list_all (is_supported false) actions.now) }
    requires below { AllBelow (W.view world.now) (levels + 1) actions.now }
    ensures ok { IfOk result (λ going. Acts (W.view world.now) S.KEEPS packet.old (acts actions.now) outcome.old (S.list log.old) going packet.new outcome.new
        (S.list log.new)) }
    ensures err { OnErr result (Breaks (W.view world.now) S.KEEPS packet.old (acts actions.now) outcome.old (S.list log.old) (S.list log.new)) }
{
    for action in actions {
        match act(world, levels, *action, packet, outcome, log)? {
            Going::Continues => {}
            Going::Ended => return Ok(Going::Ended),
        }
    }
    Ok(Going::Continues)
}

// The buckets of a group that run, each on a copy of the packet.
#[cycle(machine)]
fn to_group<W: World, S: StepLog>(
    world: &W,
    levels: u8,
    group: u32,
    packet: &Packet<'_>,
    outcome: &mut Outcome,
    log: &mut S,
) -> Result<(), AllocError>
    requires sound { IsSound (W.view world.now) }
    requires below { (W.view world.now).chain group ≤ levels }
    ensures ok { OnOk result ((rest : List Work) (others : List Task) → Moves (W.view world.now) S.KEEPS
        (point (task packet.now (ActWork (Action.Group group) ∷ rest) ∷ others) outcome.old (S.list log.old))
        (point (task packet.now rest ∷ others) outcome.new (S.list log.new))) }
    ensures err { OnErr result (Breaks (W.view world.now) S.KEEPS packet.now (ActWork (Action.Group group) ∷ []) outcome.old (S.list log.old)
        (S.list log.new)) }
{
    match world.chosen(group) {
        None => log.step(Step::Act(Action::Group(group))),
        Some(places) => {
            count_uses(group, places.as_slice(), packet.frame.len(), outcome)?;
            log.step(Step::Act(Action::Group(group)))?;
            run_buckets(
                world,
                levels - 1,
                group,
                places.as_slice(),
                packet,
                outcome,
                log,
            )
        }
    }
}

// Counts a packet for a group and for its buckets.
fn count_uses(
    group: u32,
    places: &[u8],
    bytes: usize,
    outcome: &mut Outcome,
) -> Result<(), AllocError>
    ensures counts { OnOk result (outcome.new.counts.items ≡ outcome.old.counts.items ++
        (Count.Group group bytes ∷ map (λ place. Count.Bucket group place bytes) places.now)) }
    ensures items { OnOk result (outcome.new.items.items ≡ outcome.old.items.items) }
{
    outcome.counts.push(Count::Group { group, bytes })?;
    for place in places {
        outcome.counts.push(Count::Bucket {
            group,
            place: *place,
            bytes,
        })?;
    }
    Ok(())
}

// The copies for these buckets, one after the other.
#[cycle(machine)]
fn run_buckets<W: World, S: StepLog>(
    world: &W,
    levels: u8,
    group: u32,
    places: &[u8],
    packet: &Packet<'_>,
    outcome: &mut Outcome,
    log: &mut S,
) -> Result<(), AllocError>
    requires sound { IsSound (W.view world.now) }
    requires there { AllBuckets (W.view world.now) group places.now }
    requires below { (W.view world.now).chain group ≤ levels + 1 }
    ensures ok { OnOk result (AllEnd (W.view world.now) S.KEEPS (copies (W.view world.now) group packet.now places.now) outcome.old (S.list log.old) outcome.new
        (S.list log.new)) }
    ensures err { OnErr result (AllFail (W.view world.now) S.KEEPS (copies (W.view world.now) group packet.now places.now) outcome.old (S.list log.old)
        (S.list log.new)) }
{
    for place in places {
        let mut copy = packet.copy_without_actions();
        copy.action_set.write(world.bucket(group, *place));
        run_set(world, levels, &mut copy, outcome, log)?;
    }
    Ok(())
}

/// The packet's action set, and its end.
#[cycle(machine)]
pub(crate) fn run_set<W: World, S: StepLog>(
    world: &W,
    levels: u8,
    packet: &mut Packet<'_>,
    outcome: &mut Outcome,
    log: &mut S,
) -> Result<(), AllocError>
    requires sound { IsSound (W.view world.now) }
    requires below { AllBelow (W.view world.now) (levels + 1) packet.old.action_set }
    ensures ok { OnOk result (Ends (W.view world.now) S.KEEPS packet.old (RunSet ∷ []) outcome.old (S.list log.old) outcome.new (S.list log.new)) }
    ensures err { OnErr result (Breaks (W.view world.now) S.KEEPS packet.old (RunSet ∷ []) outcome.old (S.list log.old) (S.list log.new)) }
{
    let set = packet.action_set.take();
    packet.cookie = u64::MAX;
    packet.miss = false;
    log.step(Step::Set)?;
    act_all(world, levels, set.in_order(), packet, outcome, log)?;
    log.step(Step::End)?;
    Ok(())
}
