//! Instructions and flow tables.
ghost use Rattle.std.specs.Prelude.{◌≡◌, ◌∷◌, ◌++◌, [], ◌<◌, List, true, IsTrue, IfOk, OnOk, OnErr};
ghost use Rattle.std.specs.List.{list_all};
ghost use Rattle.of_actions.specs.{declared.instruction.Instruction.Instruction, InstructionLists.is_served_body, InstructionLists.is_for, InstructionLists.are_for};
ghost use Rattle.of_machine.specs.Runs.{Ends, Follows, RunFails, IsUp, IsLater, next_works, then_works};
ghost use Rattle.of_machine.specs.{Rows.Lookup as LookupWork, Rows.works, Rows.is_miss as is_miss_entry, Sound.IsSound};

use crate::data::{Count, Outcome, Packet, Step};
use crate::machine::{Going, act_all, run_set};
use crate::world::{StepLog, World};
use of_actions::Instruction;
use of_table::Flow;
use of_wire::limits::LONGEST_CHAIN;
use std::alloc::AllocError;

/// What comes after an instruction.
#[derive(Clone, Copy)]
enum Next {
    Continues,
    Ended,
    Lookup(u8),
}

/// What comes after an entry's instructions.
#[derive(Clone, Copy)]
enum Then {
    Lookup(u8),
    Set,
    Ended,
}

/// Whether the entry is the table-miss flow entry (OpenFlow 1.3.5, 5.4).
pub fn is_miss(flow: &Flow) -> bool
    ensures { result ≡ is_miss_entry flow.now }
{
    flow.priority == 0 && flow.fields.is_empty()
}

// One instruction of an entry of the table.
fn instruct<W: World, S: StepLog>(
    world: &W,
    table: u8,
    instruction: &Instruction,
    packet: &mut Packet<'_>,
    outcome: &mut Outcome,
    log: &mut S,
) -> Result<Next, AllocError>
    requires sound { IsSound (W.view world.now) }
    requires served { IsTrue (is_served_body instruction.now) }
    requires onward { IsTrue (is_for table instruction.now) }
    ensures ok { IfOk result (λ next. (rest : List Instruction) → Follows (W.view world.now) S.KEEPS packet.old (works (instruction.now ∷ rest)) outcome.old
        (S.list log.old) (next_works next rest) packet.new outcome.new (S.list log.new)) }
    ensures err { OnErr result ((rest : List Instruction) → RunFails (W.view world.now) S.KEEPS packet.old (works (instruction.now ∷ rest)) outcome.old
        (S.list log.old) (S.list log.new)) }
    ensures up { IfOk result (λ next. IsUp table next) }
{
    match instruction {
        Instruction::Apply(actions) => {
            log.step(Step::Apply)?;
            match act_all(
                world,
                LONGEST_CHAIN,
                actions.as_slice(),
                packet,
                outcome,
                log,
            )? {
                Going::Continues => Ok(Next::Continues),
                Going::Ended => Ok(Next::Ended),
            }
        }
        Instruction::Clear => {
            packet.action_set.clear();
            log.step(Step::Clear)?;
            Ok(Next::Continues)
        }
        Instruction::Write(actions) => {
            packet.action_set.write(actions.as_slice());
            log.step(Step::Write)?;
            Ok(Next::Continues)
        }
        Instruction::Metadata { value, mask } => {
            packet.metadata = (packet.metadata & !*mask) | (*value & *mask);
            log.step(Step::Metadata {
                value: *value,
                mask: *mask,
            })?;
            Ok(Next::Continues)
        }
        Instruction::Goto(later) => {
            log.step(Step::Goto(*later))?;
            Ok(Next::Lookup(*later))
        }
    }
}

// The instructions of an entry of the table.
fn follow<W: World, S: StepLog>(
    world: &W,
    table: u8,
    instructions: &[Instruction],
    packet: &mut Packet<'_>,
    outcome: &mut Outcome,
    log: &mut S,
) -> Result<Then, AllocError>
    requires sound { IsSound (W.view world.now) }
    requires served { IsTrue (list_all is_served_body instructions.now) }
    requires onward { IsTrue (are_for table instructions.now) }
    ensures ok { IfOk result (λ then. Follows (W.view world.now) S.KEEPS packet.old (works instructions.now) outcome.old (S.list log.old) (then_works then)
        packet.new outcome.new (S.list log.new)) }
    ensures err { OnErr result (RunFails (W.view world.now) S.KEEPS packet.old (works instructions.now) outcome.old (S.list log.old) (S.list log.new)) }
    ensures later { IfOk result (λ then. IsLater table then) }
{
    for instruction in instructions {
        match instruct(world, table, instruction, packet, outcome, log)? {
            Next::Continues => {}
            Next::Ended => return Ok(Then::Ended),
            Next::Lookup(next) => return Ok(Then::Lookup(next)),
        }
    }
    Ok(Then::Set)
}

// One table: the lookup, and the entry's instructions.
fn look_up<W: World, S: StepLog>(
    world: &mut W,
    table: u8,
    packet: &mut Packet<'_>,
    outcome: &mut Outcome,
    log: &mut S,
) -> Result<Then, AllocError>
    requires { IsSound (W.view world.old) }
    ensures kept { W.view world.new ≡ W.view world.old }
    ensures content { W.content world.new ≡ W.content world.old }
    ensures ok { IfOk result (λ then. Follows (W.view world.old) S.KEEPS packet.old (LookupWork table ∷ []) outcome.old (S.list log.old) (then_works then)
        packet.new outcome.new (S.list log.new)) }
    ensures err { OnErr result (RunFails (W.view world.old) S.KEEPS packet.old (LookupWork table ∷ []) outcome.old (S.list log.old) (S.list log.new)) }
    ensures later { IfOk result (λ then. IsLater table then) }
{
    let key = packet.key();
    match world.find(table, &key) {
        None => {
            outcome.counts.push(Count::Lookup(table))?;
            log.step(Step::Miss(table))?;
            Ok(Then::Ended)
        }
        Some(number) => {
            let matched = Count::Matched {
                table,
                number,
                bytes: packet.frame.len(),
            };
            outcome.counts.push(Count::Lookup(table))?;
            outcome.counts.push(matched)?;
            log.step(Step::Entry { table, number })?;
            let world = &*world;
            let flow = world.flow(table, number);
            packet.cookie = flow.cookie;
            packet.table = table;
            packet.miss = is_miss(flow);
            let instructions = flow.instructions.as_slice();
            follow(world, table, instructions, packet, outcome, log)
        }
    }
}

/// The tables from the first on, and the packet's end.
pub(crate) fn pipeline<W: World, S: StepLog>(
    world: &mut W,
    packet: &mut Packet<'_>,
    outcome: &mut Outcome,
    log: &mut S,
) -> Result<(), AllocError>
    requires { IsSound (W.view world.old) }
    ensures kept { W.view world.new ≡ W.view world.old }
    ensures content { W.content world.new ≡ W.content world.old }
    ensures ok { OnOk result (Ends (W.view world.old) S.KEEPS packet.old (LookupWork 0 ∷ []) outcome.old (S.list log.old) outcome.new (S.list log.new)) }
    ensures err { OnErr result (RunFails (W.view world.old) S.KEEPS packet.old (LookupWork 0 ∷ []) outcome.old (S.list log.old) (S.list log.new)) }
{
    let mut table: u8 = 0;
    loop {
        match look_up(world, table, packet, outcome, log)? {
            Then::Lookup(next) => table = next,
            Then::Set => return run_set(&*world, LONGEST_CHAIN, packet, outcome, log),
            Then::Ended => {
                log.step(Step::End)?;
                return Ok(());
            }
        }
    }
}
