ghost use Rattle.std.specs.Prelude.{◌≡◌, ◌==◌, ◌∷◌, [], Some, None, IsTrue, IfOk, if◌then◌else◌};
ghost use Rattle.of_actions.specs.{declared.action.Action.TheVariants.Output, InstructionLists.are_for, Rising.is_ascending};
ghost use Rattle.of_ports.specs.Ports.{number_of_port};

mod rows;

use crate::checks::same;
use crate::lists::{action_list, list_of};
use of_actions::{Action, ActionList, Instruction, InstructionList};
use of_headers::FieldKey;
use of_machine::{
    Chosen, Count, Item, NoLog, Outcome, Packet, PacketFrame, PacketInReason, Step, Steps,
    ToController, World, run, run_actions,
};
use of_oxm::Match;
use of_ports::Port;
use of_table::{Flow, FlowFlags};
use rows::{Kind, ROWS, Row, TO_THREE, TO_TWO, Wanted, Way};
use std::alloc::Global;
use std::process::Abort;
use std::test::Fail;

static FIRST_BUCKET: [Action; 1] = [TO_TWO];

static SECOND_BUCKET: [Action; 1] = [TO_THREE];

// A table 0 of one entry, which wins for each packet, and groups of two buckets.
#[derive(Drop)]
struct OneEntry {
    flow: Flow,
    ports: [Port; 3],
    ghost onward: { IsTrue (are_for 0 flow.instructions) },
    ghost rising: { IsTrue (is_ascending number_of_port ports) },
}

impl World for OneEntry {
    ghost view = { λ s. record { winner = λ t _. if t == 0 then Some 0 else None; flow = λ t _. if t == 0 then Some s.flow else None; chosen = λ _. Some (0 ∷ 1 ∷ []); bucket = λ _ k. Some (if k == 0 then Output 2 0 ∷ [] else Output 3 0 ∷ []); ports = s.ports; chain = λ _. 1 } };

    ghost Content = { Unit {0} };

    ghost content = { λ _. tt };

    fn find(&mut self, table: u8, _key: &FieldKey) -> Option<usize> {
        if table == 0 { Some(0) } else { None }
    }

    fn flow(&self, _table: u8, _number: usize) -> &Flow {
        &self.flow
    }

    fn chosen(&self, _group: u32) -> Option<Chosen> {
        let mut places = Chosen::new();
        places.push(0);
        places.push(1);
        Some(places)
    }

    fn bucket(&self, _group: u32, place: u8) -> &[Action] {
        if place == 0 {
            &FIRST_BUCKET
        } else {
            &SECOND_BUCKET
        }
    }

    fn ports(&self) -> &[Port] {
        &self.ports
    }

    fn known(&self) {
        let _instructions = self.flow.instructions.as_slice();
    }
}

fn port(number: u32) -> Port
    ensures { result.number ≡ number }
{
    Port::new(number, [2, 0, 0, 0, 0, 1], [0; 16], true, 0)
}

const NO_FLAGS: FlowFlags = FlowFlags {
    send_removed: false,
    check_overlap: false,
    reset_counts: false,
    no_packet_counts: false,
    no_byte_counts: false,
};

// The instruction of a row, as the list of a flow of table 0.
fn instructions(alloc: Global, row: &Row) -> Result<InstructionList, Fail>
    ensures { IfOk result (λ list. IsTrue (are_for 0 list)) }
{
    let actions = action_list(alloc, row.actions)?;
    let instruction = match row.kind {
        Kind::Apply => Instruction::Apply(actions),
        Kind::Write => Instruction::Write(actions),
    };
    let list = list_of(alloc, instruction)?;
    if !list.are_for(0) {
        return Err("of table 0".into());
    }
    Ok(list)
}

// The world whose entry is that of a row.
fn world(alloc: Global, row: &Row) -> Result<OneEntry, Fail> {
    let instructions = instructions(alloc, row)?;
    let flow = Flow {
        fields: Match::of_all(alloc),
        priority: row.priority,
        cookie: 7,
        idle_timeout: 0,
        hard_timeout: 0,
        flags: NO_FLAGS,
        instructions,
    };
    Ok(OneEntry {
        flow,
        ports: [port(1), port(2), port(3)],
    })
}

// A packet that came by port 1.
fn packet<'a>(rt: &impl Abort, bytes: &'a [u8]) -> Packet<'a>
    ensures { result.action_set ≡ [] }
{
    assert!(rt; bytes.len() >= 14 && bytes.len() <= 1500);
    Packet::new(PacketFrame::new(bytes), 1)
}

fn logged(
    rt: &impl Abort,
    alloc: Global,
    world: &mut OneEntry,
    row: &Row,
    steps: &[Step],
) -> Result<Outcome, Fail> {
    let mut log = Steps::new(alloc);
    let outcome = run(alloc, world, packet(rt, row.frame), &mut log)?;
    assert!(rt; log.list.as_slice() == steps, "steps at {}", row.what);
    Ok(outcome)
}

fn packet_out(
    rt: &impl Abort,
    alloc: Global,
    world: &mut OneEntry,
    row: &Row,
    actions: &ActionList,
    steps: &[Step],
) -> Result<Outcome, Fail> {
    let mut log = Steps::new(alloc);
    let packet = packet(rt, row.frame);
    let outcome = run_actions(alloc, world, packet, actions.as_slice(), &mut log)?;
    assert!(rt; log.list.as_slice() == steps, "steps at {}", row.what);
    Ok(outcome)
}

fn was_sent(rt: &impl Abort, what: &str, by: u32, frame: &[u8], wanted: &Wanted) {
    match wanted {
        Wanted::Sent { port, bytes } => same(rt, what, &(by, frame), &(*port, *bytes)),
        Wanted::Told { .. } => same(rt, what, &"sent", &"told"),
    }
}

// It came by port 1, and went to the controller by the entry of a row.
fn was_told(rt: &impl Abort, what: &str, told: &ToController, wanted: &Wanted) {
    let from = (told.table, told.cookie, told.ingress, told.metadata);
    same(rt, what, &from, &(0, 7, 1, 0));
    let found = (told.reason, told.max_len, told.frame.as_slice());
    match wanted {
        Wanted::Told {
            reason,
            max_len,
            bytes,
        } => same(rt, what, &found, &(*reason, *max_len, *bytes)),
        Wanted::Sent { .. } => same(rt, what, &"told", &"sent"),
    }
}

fn is_wanted(rt: &impl Abort, what: &str, item: &Item, wanted: &Wanted) {
    match item {
        Item::Sent { port, frame } => was_sent(rt, what, *port, frame.as_slice(), wanted),
        Item::PacketIn(told) => was_told(rt, what, told, wanted),
    }
}

fn are_wanted(rt: &impl Abort, row: &Row, items: &[Item]) {
    same(rt, row.what, &items.len(), &row.items.len());
    for (item, wanted) in items.iter().zip(row.items) {
        is_wanted(rt, row.what, item, wanted);
    }
}

fn are_counted(rt: &impl Abort, row: &Row, counts: &[Count]) {
    if let Some(wanted) = row.counts {
        assert!(rt; counts == wanted, "counts at {}", row.what);
    }
}

fn outcome_of(
    rt: &impl Abort,
    alloc: Global,
    world: &mut OneEntry,
    row: &Row,
) -> Result<Outcome, Fail> {
    match &row.way {
        Way::Logged(steps) => logged(rt, alloc, world, row, steps),
        Way::Unlogged => Ok(run(alloc, world, packet(rt, row.frame), &mut NoLog)?),
        Way::PacketOut { actions, steps } => {
            packet_out(rt, alloc, world, row, &action_list(alloc, actions)?, steps)
        }
    }
}

fn play_in(rt: &impl Abort, alloc: Global, world: &mut OneEntry, row: &Row) -> Result<(), Fail> {
    let outcome = outcome_of(rt, alloc, world, row)?;
    are_wanted(rt, row, outcome.items.as_slice());
    are_counted(rt, row, outcome.counts.as_slice());
    Ok(())
}

fn play(rt: &impl Abort, alloc: Global, row: &Row) -> Result<(), Fail> {
    let mut world = world(alloc, row)?;
    play_in(rt, alloc, &mut world, row)
}

#[test]
fn packets(rt: HostRuntime) -> Result<(), Fail> {
    for row in &ROWS {
        play(&rt, rt.alloc(), row)?;
    }
    Ok(())
}
