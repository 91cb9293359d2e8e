//! Actions from bytes.
ghost use Rattle.std.specs.Prelude.{◌≡◌, ◌≤◌, ℕ, Bool, Option, List, [], length, IsTrue, IfOk, OnOk, IfErr, Some, None};
ghost use Rattle.of_wire.specs.{declared.code.Code.Code as ErrorCode, Failures.Fails, Failures.Reads as AnswersAs, Refusals.first_of};
ghost use Rattle.of_actions.specs.{declared.action.Action.Action as AnAction, Actions.AreActions, Actions.action_at, Actions.wire_action_refusals, Actions.actions_said, Beginnings.len_at};
ghost use Rattle.of_actions.specs.{Readings.ReadsValue, Readings.Refuses, Supported.are_supported, Supported.is_supported};

use crate::action::{Action, read_type};
use crate::action_list::ActionList;
use byteorder::{BigEndian, ByteOrder};
use of_wire::codes::{OFPBAC_BAD_LEN, OFPBAC_TOO_MANY};
use of_wire::{Code, ReadError};
use std::alloc::Global;

/// How many bytes most actions have: an OUTPUT, and a SET_FIELD of up to eight bytes.
const MOST_OFTEN: usize = 16;

/// How many actions a list has at most.
const MOST_ACTIONS: usize = 64;

// The action that the bytes begin with, and its size.
#[tactic(auto, unfolding(crate::specs::Actions::wire_action_refusals))]
fn read_action(rest: &[u8], seen: &[Action], packet_out: bool) -> Result<(Action, usize), Code>
    ensures size { IfOk result (λ read. read.1 ≡ len_at rest.now) }
    ensures some { IfOk result (λ read. 8 ≤ read.1) }
    ensures whole { IfOk result (λ read. read.1 ≤ length rest.now) }
    ensures room { OnOk result (length seen.now ≤ 63) }
    ensures none { OnOk result (first_of (wire_action_refusals packet_out seen.now rest.now) ≡ None) }
    ensures action { IfOk result (λ read. action_at rest.now ≡ Some read.0) }
    ensures served { IfOk result (λ read. IsTrue (is_supported packet_out read.0)) }
    ensures first { IfErr result (λ code. first_of (wire_action_refusals packet_out seen.now rest.now) ≡ Some code) }
{
    if seen.len() >= MOST_ACTIONS {
        return Err(OFPBAC_TOO_MANY);
    }
    if rest.len() < 4 {
        return Err(OFPBAC_BAD_LEN);
    }
    let (_, after) = rest.split_at(2);
    let len = BigEndian::read_u16(after) as usize;
    if len < 8 || len % 8 != 0 || rest.len() < len {
        return Err(OFPBAC_BAD_LEN);
    }
    let action = read_type(rest, len, packet_out)?;
    Ok((action, len))
}

fn read_all(alloc: Global, bytes: &[u8], packet_out: bool) -> Result<Vec<Action>, ReadError>
    ensures found { IfOk result (λ v. AreActions packet_out [] bytes.now v.items None) }
    ensures served { IfOk result (λ v. IsTrue (are_supported packet_out v.items)) }
    ensures refused { IfErr result (Fails (λ code. (before : List AnAction) × AreActions packet_out [] bytes.now before (Some code))) }
{
    let mut actions = Vec::with_capacity(
        alloc,
        bytes.len().div_ceil(MOST_OFTEN).min(MOST_ACTIONS),
    )?;
    let mut rest = bytes;
    while !rest.is_empty() {
        match read_action(rest, &actions, packet_out) {
            Err(code) => return Err(ReadError::Refused(code)),
            Ok((action, size)) => {
                let (_, after) = rest.split_at(size);
                rest = after;
                actions.push(action)?;
            }
        }
    }
    Ok(actions)
}

fn parse_actions(alloc: Global, bytes: &[u8], packet_out: bool) -> Result<ActionList, ReadError>
    ensures found { IfOk result (λ list. AreActions packet_out [] bytes.now list None) }
    ensures served { IfOk result (λ list. IsTrue (are_supported packet_out list)) }
    ensures refused { IfErr result (Fails (λ code. (before : List AnAction) × AreActions packet_out [] bytes.now before (Some code))) }
{
    let actions = read_all(alloc, bytes, packet_out)?;
    Ok(ActionList { actions })
}

/// All of the bytes as actions (OpenFlow 1.3.5, 7.2.5): those of a PACKET_OUT, or of an instruction.
/// Actions are refused one by one, by the error of the first fault.
pub fn read_actions(alloc: Global, bytes: &[u8], packet_out: bool) -> Result<ActionList, ReadError>
    // What is read is encoded so, and what is encoded is read, unless memory runs out.
    ensures found { IfOk result (λ list. AreActions packet_out [] bytes.now list None) }
    ensures only { (list : List AnAction) → AreActions packet_out [] bytes.now list None → ReadsValue result list }
    // Other bytes have one code, and it is answered, unless memory runs out.
    ensures refused { IfErr result (Fails (λ code. (before : List AnAction) × AreActions packet_out [] bytes.now before (Some code))) }
    ensures exact { (code : ErrorCode) (before : List AnAction) → AreActions packet_out [] bytes.now before (Some code) → Refuses result code }
    // Both, as a function of the bytes.
    ensures reads { AnswersAs result (actions_said packet_out bytes.now) }
    // What is read is valid where it was read.
    ensures served { IfOk result (λ list. IsTrue (are_supported packet_out list)) }
{
    parse_actions(alloc, bytes, packet_out)
}

/// No bytes encode two lists of actions, or have two codes, or both.
pub fn one_reading()
    ensures { (packet_out : Bool) (bytes : List ℕ) (some others : List AnAction) (o p : Option ErrorCode) → AreActions packet_out [] bytes some o →
        AreActions packet_out [] bytes others p → (some ≡ others) × (o ≡ p) }
{}
