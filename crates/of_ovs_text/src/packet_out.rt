//! PACKET_OUT in words.
ghost use Rattle.std.specs.Prelude.{◌≡◌, ◌≤◌, length, IfOk, OnOk, map};
ghost use Rattle.std.specs.Option.{option_map};
ghost use Rattle.hex.specs.Hex.{decode_of};
ghost use Rattle.of_text.specs.Views.{view, view_instruction};
ghost use Rattle.of_ovs_lines.specs.LineContentViews.{view_line_content};
ghost use Rattle.of_ovs_text.specs.PacketOuts.{actions_by, applied_actions, ingress_by, lone_ingress, packet_by, packet_content_said, packet_of_flow, packet_out_bytes, packet_words_said, packet_out_words, with_packet_word};
ghost use Rattle.of_ovs_text.specs.{PacketViews.view_packet_words, Reasons.SaysOrFails};

use crate::flow::{MODE, copy_of, refusal_of};
use crate::no_message::NoMessage;
use crate::writing::message_of;
use hex::FromHexError;
use of_actions::{Action, ActionList, write_actions};
use of_formats::messages::PACKET_OUT;
use of_layers::Field;
use of_ovs_lines::{LineContent, read_line};
use of_ovs_words::{cut_word, name_of, value_of};
use of_oxm::MatchField;
use of_text::{FlowText, InstructionText, is};
use of_wire::limits::OFP_NO_BUFFER;
use of_wire::{Bytes, put_u16, put_u32, put_zeros};
use std::alloc::{AllocError, Global};

// The words of a PACKET_OUT.
#[derive(Drop)]
struct PacketWords {
    // the hex digits of the frame
    frame: Option<Vec<u8>>,
    // the other words, with a comma behind each
    others: Vec<u8>,
}

#[tactic(auto, unfolding(crate::specs::PacketOuts::with_packet_word))]
fn add_word(alloc: Global, words: &mut PacketWords, word: &[u8]) -> Result<(), AllocError>
    ensures { OnOk result (view_packet_words words.new ≡ with_packet_word (view_packet_words words.old) word.now) }
{
    if is(name_of(word), b"packet") {
        words.frame = Some(value_of(word).to_vec(alloc)?);
        return Ok(());
    }
    words.others.extend_from_slice(word)?;
    words.others.push(b',')?;
    Ok(())
}

fn words_of(alloc: Global, text: &[u8]) -> Result<PacketWords, AllocError>
    ensures { IfOk result (λ words. view_packet_words words ≡ packet_out_words text.now) }
{
    let mut words = PacketWords {
        frame: None,
        others: Vec::new(alloc),
    };
    let mut rest = text;
    while !rest.is_empty() {
        let (word, after) = cut_word(rest);
        rest = after;
        if !word.is_empty() {
            match add_word(alloc, &mut words, word) {
                Ok(()) => {}
                Err(error) => return Err(error),
            }
        }
    }
    Ok(words)
}

fn ingress_by_field(e: MatchField) -> Option<u32>
    ensures { result ≡ ingress_by e.field e.mask e.value }
{
    match (e.field, e.mask) {
        (Field::InPort, None) => {
            if e.value < 0x1_0000_0000 {
                Some(e.value as u32)
            } else {
                None
            }
        }
        _ => None,
    }
}

// The ingress port, if the match has no other field.
fn ingress_of(fields: &[MatchField]) -> Option<u32>
    ensures { result ≡ lone_ingress fields.now }
{
    match fields {
        [e] => ingress_by_field(*e),
        _ => None,
    }
}

fn applied_by(instruction: &InstructionText) -> Result<Option<Vec<Action>>, AllocError>
    ensures { IfOk result (λ found. option_map (λ xs. xs.items) found ≡ actions_by (view_instruction instruction.now)) }
{
    match instruction {
        InstructionText::Apply(actions) => Ok(Some(copy_of(actions)?)),
        _ => Ok(None),
    }
}

// The actions, if there is no other instruction.
fn actions_of(
    alloc: Global,
    instructions: &[InstructionText],
) -> Result<Option<Vec<Action>>, AllocError>
    ensures { IfOk result (λ found. option_map (λ xs. xs.items) found ≡ applied_actions (map view_instruction instructions.now)) }
{
    match instructions {
        [] => Ok(Some(Vec::new(alloc))),
        [instruction] => applied_by(instruction),
        _ => Ok(None),
    }
}

// A PACKET_OUT without a buffer (OpenFlow 1.3.5, 7.3.7).
fn packet_out(
    alloc: Global,
    xid: u32,
    in_port: u32,
    actions: &[u8],
    frame: &[u8],
) -> Result<Bytes, AllocError>
    requires { length actions.now ≤ 1536 }
    ensures { IfOk result (λ bytes. bytes ≡ packet_out_bytes xid in_port actions.now frame.now) }
{
    let mut body = Vec::new(alloc);
    put_u32(&mut body, OFP_NO_BUFFER)?;
    put_u32(&mut body, in_port)?;
    put_u16(&mut body, actions.len() as u16)?;
    put_zeros(&mut body, 6)?;
    body.extend_from_slice(actions)?;
    body.extend_from_slice(frame)?;
    message_of(alloc, PACKET_OUT, xid, &body)
}

// The PACKET_OUT that sends a frame as a flow does whose match is its ingress port.
#[tactic(auto, unfolding(crate::specs::PacketOuts::packet_of_flow))]
fn with_flow(alloc: Global, xid: u32, flow: &FlowText, frame: &[u8]) -> Result<Bytes, NoMessage>
    ensures { SaysOrFails result (packet_of_flow xid frame.now (view flow.now)) }
{
    let Some(in_port) = ingress_of(&flow.fields) else {
        return Err(NoMessage::Missing);
    };
    let Some(actions) = actions_of(alloc, &flow.instructions)? else {
        return Err(NoMessage::Missing);
    };
    match ActionList::new(actions) {
        Some(list) => Ok(packet_out(alloc, xid, in_port, &write_actions(alloc, &list)?, frame)?),
        None => Err(refusal_of(flow)),
    }
}

fn with_content(
    alloc: Global,
    xid: u32,
    frame: &[u8],
    content: LineContent,
) -> Result<Bytes, NoMessage>
    ensures { SaysOrFails result (packet_content_said xid frame.now (view_line_content content)) }
{
    match content {
        LineContent::Flow(flow, _) => with_flow(alloc, xid, &flow, frame),
        LineContent::Refused(faults) => Err(NoMessage::Faults(faults)),
        LineContent::Nothing | LineContent::Group(_) => Err(NoMessage::Missing),
    }
}

// The PACKET_OUT with a frame in hex digits, and the other words.
fn with_digits(alloc: Global, xid: u32, digits: Vec<u8>, others: &[u8]) -> Result<Bytes, NoMessage>
    ensures { SaysOrFails result (packet_by xid digits.items others.now (decode_of digits.items)) }
{
    match hex::decode(alloc, digits.as_slice()) {
        Ok(frame) => {
            let content = read_line(alloc, MODE, &[], others)?;
            with_content(alloc, xid, &frame, content)
        }
        Err(FromHexError::OutOfMemory) => Err(NoMessage::NoMemory),
        Err(_) => Err(NoMessage::Word(digits)),
    }
}

/// PACKET_OUT (OpenFlow 1.3.5, 7.3.7).
#[tactic(auto, unfolding(crate::specs::PacketOuts::packet_words_said))]
pub fn packet_message(alloc: Global, xid: u32, text: &[u8]) -> Result<Bytes, NoMessage>
    ensures { SaysOrFails result (packet_words_said xid text.now) }
{
    let PacketWords { frame, others } = words_of(alloc, text)?;
    match frame {
        Some(digits) => with_digits(alloc, xid, digits, &others),
        None => Err(NoMessage::Missing),
    }
}
