use crate::checks::{code_of, is_written, same};
use of_actions::{
    Action, ActionList, Instruction, InstructionList, check_flow, is_number, read_actions,
    read_instructions, write_actions, write_instructions,
};
use of_layers::Field;
use of_oxm::read_match;
use of_test_peers::rows::bytes_of;
use of_wire::Code;
use of_wire::limits::{OFPP_MAX, OFPP_TABLE};
use std::alloc::Global;
use std::process::Abort;
use std::test::Fail;

pub(crate) mod rows;

fn actions_in(alloc: Global, words: &str, is_packet_out: bool) -> Result<ActionList, Fail> {
    Ok(read_actions(alloc, &bytes_of(alloc, words)?, is_packet_out)?)
}

/// The instructions of an entry of table 3.
fn instructions_in(alloc: Global, words: &str) -> Result<InstructionList, Fail> {
    Ok(read_instructions(alloc, &bytes_of(alloc, words)?, 3)?)
}

/// What is written of a copy of the list that is read from these bytes.
pub(crate) fn actions_again(alloc: Global, words: &str) -> Result<Vec<u8>, Fail> {
    let list = actions_in(alloc, words, true)?;
    Ok(write_actions(alloc, &list.copy()?)?)
}

pub(crate) fn instructions_again(alloc: Global, words: &str) -> Result<Vec<u8>, Fail> {
    let list = instructions_in(alloc, words)?;
    Ok(write_instructions(alloc, &list.copy()?)?)
}

/// Whether there is one instruction, which applies these actions.
pub(crate) fn applies(instructions: &[Instruction], wanted: &[Action]) -> bool {
    match instructions {
        [Instruction::Apply(actions)] => actions.as_slice() == wanted,
        _ => false,
    }
}

fn made_actions(alloc: Global) -> Result<ActionList, Fail> {
    let mut actions = Vec::new(alloc);
    actions.push(Action::Output {
        port: OFPP_TABLE,
        max_len: 0xffff,
    })?;
    Ok(ActionList::new(actions).ok_or("one action is a list")?)
}

fn is_made(rt: &impl Abort, alloc: Global, actions: &ActionList) -> Result<(), Fail> {
    let counts = (actions.len(), actions.is_empty());
    same(rt, "one action", &counts, &(1, false));
    let written = write_actions(alloc, actions)?;
    is_written(rt, alloc, &written, rows::OUTPUT_TO_TABLE)
}

#[test]
fn made_list_of_actions(rt: HostRuntime) -> Result<(), Fail> {
    let actions = made_actions(rt.alloc())?;
    is_made(&rt, rt.alloc(), &actions)?;
    let read = actions_in(rt.alloc(), rows::OUTPUT_TO_TABLE, true)?;
    same(&rt, "as it is read", &read.as_slice(), &actions.as_slice());
    Ok(())
}

#[test]
fn numbers_of_ports(rt: HostRuntime) {
    assert!(rt; is_number(OFPP_MAX));
    assert!(rt; !is_number(0));
}

fn made_instructions(alloc: Global) -> Result<InstructionList, Fail> {
    let mut instructions = Vec::new(alloc);
    instructions.push(Instruction::Clear)?;
    instructions.push(Instruction::Goto(5))?;
    Ok(InstructionList::new(instructions).ok_or("in the order of running")?)
}

fn are_two(rt: &impl Abort, list: &InstructionList) {
    let counts = (list.len(), list.is_empty());
    same(rt, "two instructions", &counts, &(2, false));
    let tables = (list.are_for(4), list.are_for(5));
    same(rt, "of tables 4 and 5", &tables, &(true, false));
}

#[test]
fn made_list_of_instructions(rt: HostRuntime) -> Result<(), Fail> {
    are_two(&rt, &made_instructions(rt.alloc())?);
    Ok(())
}

const EACH_ACTION: [Action; 7] = [
    Action::PushVlan(0x88a8),
    Action::PopVlan,
    Action::Group(256),
    Action::SetNwTtl(64),
    Action::DecNwTtl,
    Action::SetField {
        field: Field::Ipv6Dst,
        value: 0x2001_0db8_0000_0000_0000_0000_0000_0001,
    },
    Action::SetField {
        field: Field::VlanVid,
        value: 5,
    },
];

#[test]
fn each_action(rt: HostRuntime) -> Result<(), Fail> {
    let list = actions_in(rt.alloc(), rows::EACH_ACTION, false)?;
    same(
        &rt,
        "each action",
        &list.as_slice(),
        &EACH_ACTION.as_slice(),
    );
    Ok(())
}

/// 64 actions.
fn most_actions(alloc: Global) -> Result<Vec<u8>, Fail> {
    let mut bytes = Vec::new(alloc);
    for _ in 0..64 {
        bytes.extend_from_slice(&[0, 0, 0, 16, 0, 0, 0, 1, 0, 0, 0, 0, 0, 0, 0, 0])?;
    }
    Ok(bytes)
}

#[test]
fn too_many_actions(rt: HostRuntime) -> Result<(), Fail> {
    let mut bytes = most_actions(rt.alloc())?;
    let list = read_actions(rt.alloc(), &bytes, false)?;
    same(&rt, "64 actions", &list.len(), &64);
    bytes.push(0)?;
    let refusal = code_of(read_actions(rt.alloc(), &bytes, false));
    same(
        &rt,
        "a byte more",
        &refusal,
        &Some(Code { kind: 2, code: 7 }),
    );
    Ok(())
}

/// Whether the instructions of these bytes go with the match of those.
fn flow_check_of(
    alloc: Global,
    fields: &str,
    list: &InstructionList,
) -> Result<Option<Code>, Fail> {
    let (fields, _) = read_match(alloc, &bytes_of(alloc, fields)?)?;
    Ok(check_flow(&fields, list.as_slice()).err())
}

#[test]
fn flow_check(rt: HostRuntime) -> Result<(), Fail> {
    let list = instructions_in(rt.alloc(), rows::SET_UDP_DST)?;
    let inconsistent = Some(Code { kind: 2, code: 10 });
    let of_ip = flow_check_of(rt.alloc(), rows::MATCH_OF_IP, &list)?;
    same(&rt, "with a match of IP", &of_ip, &inconsistent);
    let of_udp = flow_check_of(rt.alloc(), rows::MATCH_OF_UDP, &list)?;
    same(&rt, "with a match of UDP", &of_udp, &None);
    Ok(())
}
