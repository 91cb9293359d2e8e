//! Messages from bytes.
ghost use Rattle.std.specs.Prelude.{◌≡◌, ◌≤◌, ◌<◌, ◌+◌, length, drop, Some, None, true, false, slice_index, IfOk, MatchResult};
ghost use Rattle.byteorder.specs.Endian.{big_number};
ghost use Rattle.of_wire.specs.Failures.{Reads};
ghost use Rattle.of_messages.specs.Messages.{message_from, message_of, message_body, command_said, flow_mod_of, instructions_for, is_delete, is_ingress as may_be_ingress, packet_in_data, packet_out_of};
ghost use Rattle.of_messages.specs.{Heads.HasHead, Heads.actions_length, Promised.IsSoundFlowMod, Promised.IsSoundPacket, Promised.IsSoundMessage};
ghost use Rattle.of_actions.specs.InstructionLists.{are_for};

use crate::async_masks::read_async_masks;
use crate::config::{read_set_config, read_table_mod};
use crate::group_mod::read_group_mod;
use crate::head::{actions_length_in, check_sender};
use crate::message::{FlowMod, FlowModCommand, Message, PacketData, PacketOut};
use crate::multipart::read_multipart;
use crate::port_mod::read_port_mod;
use crate::role::{Role, read_role_request};
use byteorder::{BigEndian, ByteOrder};
use of_actions::{InstructionList, check_flow, is_number, read_actions, read_instructions};
use of_formats::messages::{
    BARRIER_REQUEST, ECHO_REPLY, ECHO_REQUEST, ERROR, FEATURES_REQUEST, FLOW_MOD,
    GET_ASYNC_REQUEST, GET_CONFIG_REQUEST, GROUP_MOD, HELLO, MULTIPART_REQUEST, PACKET_OUT,
    PORT_MOD, ROLE_REQUEST, SET_ASYNC, SET_CONFIG, TABLE_MOD,
};
use of_headers::check_length;
use of_oxm::read_match;
use of_wire::codes::{
    OFPBRC_BAD_PACKET, OFPBRC_BAD_PORT, OFPBRC_BAD_TYPE, OFPFMFC_BAD_COMMAND, OFPFMFC_BAD_FLAGS,
    OFPFMFC_BAD_TABLE_ID,
};
use of_wire::limits::{FLOW_MOD_FLAGS, OFP_NO_BUFFER, OFPP_CONTROLLER, OFPTT_ALL, TABLES};
use of_wire::{Bytes, Code, ReadError};
use std::alloc::Global;

// The bytes from that place on.
pub(crate) fn rest_from(bytes: &[u8], at: usize) -> &[u8]
    requires { at ≤ length bytes.now }
    ensures rest { result.now ≡ drop at bytes.now }
    ensures size { length result.now + at ≡ length bytes.now }
{
    &bytes[at..]
}

// The command of a FLOW_MOD whose fixed fields are not refused.
#[tactic(auto, unfolding(crate::specs::Messages::command_said))]
fn check_flow_mod(message: &[u8]) -> Result<FlowModCommand, Code>
    requires { 48 ≤ length message.now }
    ensures said { result ≡ command_said (slice_index message.now 25) (slice_index message.now 24) (big_number 2 (drop 44 message.now)) }
    ensures table { IfOk result (λ command. is_delete command ≡ false → slice_index message.now 24 < 16) }
{
    let Some(command) = FlowModCommand::of_byte(message[25]) else {
        return Err(OFPFMFC_BAD_COMMAND);
    };
    let table = message[24];
    if table >= TABLES && !(command.is_delete() && table == OFPTT_ALL) {
        return Err(OFPFMFC_BAD_TABLE_ID);
    }
    if BigEndian::read_u16(rest_from(message, 44)) > FLOW_MOD_FLAGS {
        return Err(OFPFMFC_BAD_FLAGS);
    }
    Ok(command)
}

// The instructions after a match. The two DELETE commands have none, whatever follows.
#[tactic(auto, using(crate::proofs::NoInstructions::no_instructions))]
fn read_instructions_for(
    alloc: Global,
    command: FlowModCommand,
    bytes: &[u8],
    table: u8,
) -> Result<InstructionList, ReadError>
    ensures reads { Reads result (instructions_for command table bytes.now) }
    ensures fit { IfOk result (λ list. are_for table list ≡ true) }
{
    if command.is_delete() {
        read_instructions(alloc, &[], table)
    } else {
        read_instructions(alloc, bytes, table)
    }
}

fn read_flow_mod(alloc: Global, message: &[u8]) -> Result<FlowMod, ReadError>
    requires { 48 ≤ length message.now }
    ensures reads { Reads result (flow_mod_of message.now) }
    ensures sound { IfOk result IsSoundFlowMod }
{
    let command = match check_flow_mod(message) {
        Ok(command) => command,
        Err(code) => return Err(ReadError::Refused(code)),
    };
    let body = rest_from(message, 48);
    let (fields, size) = read_match(alloc, body)?;
    let instructions = read_instructions_for(alloc, command, rest_from(body, size), message[24])?;
    if let Err(code) = check_flow(&fields, instructions.as_slice()) {
        return Err(ReadError::Refused(code));
    }
    Ok(FlowMod {
        cookie: BigEndian::read_u64(rest_from(message, 8)),
        cookie_mask: BigEndian::read_u64(rest_from(message, 16)),
        table: message[24],
        command,
        idle_timeout: BigEndian::read_u16(rest_from(message, 26)),
        hard_timeout: BigEndian::read_u16(rest_from(message, 28)),
        priority: BigEndian::read_u16(rest_from(message, 30)),
        buffer: BigEndian::read_u32(rest_from(message, 32)),
        out_port: BigEndian::read_u32(rest_from(message, 36)),
        out_group: BigEndian::read_u32(rest_from(message, 40)),
        flags: BigEndian::read_u16(rest_from(message, 44)),
        fields,
        instructions,
    })
}

/// Whether a PACKET_OUT may have this ingress port (OpenFlow 1.3.5, 7.3.7).
pub fn is_ingress(port: u32) -> bool
    ensures { result ≡ may_be_ingress port }
{
    is_number(port) || port == OFPP_CONTROLLER
}

// The frame of a PACKET_OUT, or the number of its buffer.
fn read_packet(alloc: Global, buffer: u32, frame: &[u8]) -> Result<PacketData, ReadError>
    ensures reads { Reads result (packet_in_data buffer frame.now) }
    ensures sound { IfOk result IsSoundPacket }
{
    if buffer != OFP_NO_BUFFER {
        return Ok(PacketData::Buffered(buffer));
    }
    match check_length(frame) {
        Ok(()) => Ok(PacketData::Frame(Bytes::from_slice(alloc, frame)?)),
        Err(_) => Err(ReadError::Refused(OFPBRC_BAD_PACKET)),
    }
}

fn read_packet_out(alloc: Global, message: &[u8]) -> Result<PacketOut, ReadError>
    requires { 24 + actions_length message.now ≤ length message.now }
    ensures reads { Reads result (packet_out_of message.now) }
    ensures sound { IfOk result (λ m. IsSoundPacket m.packet) }
{
    let in_port = BigEndian::read_u32(rest_from(message, 12));
    if !is_ingress(in_port) {
        return Err(ReadError::Refused(OFPBRC_BAD_PORT));
    }
    let (bytes, frame) = rest_from(message, 24).split_at(actions_length_in(message));
    let actions = read_actions(alloc, bytes, true)?;
    let buffer = BigEndian::read_u32(rest_from(message, 8));
    let packet = read_packet(alloc, buffer, frame)?;
    Ok(PacketOut {
        in_port,
        actions,
        packet,
    })
}

// A message whose head is not refused.
#[tactic(auto, unfolding(crate::specs::Messages::message_body, of_formats::specs::Messages::message_row))]
fn read_body(alloc: Global, message: &[u8]) -> Result<Message, ReadError>
    requires { HasHead message.now }
    ensures reads { Reads result (message_body message.now) }
    ensures sound { IfOk result IsSoundMessage }
{
    Ok(match message[1] {
        HELLO => Message::Hello,
        ERROR => Message::Error,
        ECHO_REQUEST => Message::EchoRequest(Bytes::from_slice(alloc, rest_from(message, 8))?),
        ECHO_REPLY => Message::EchoReply,
        FEATURES_REQUEST => Message::FeaturesRequest,
        GET_CONFIG_REQUEST => Message::GetConfigRequest,
        SET_CONFIG => Message::SetConfig(read_set_config(message)?),
        PACKET_OUT => Message::PacketOut(read_packet_out(alloc, message)?),
        FLOW_MOD => Message::FlowMod(read_flow_mod(alloc, message)?),
        GROUP_MOD => Message::GroupMod(read_group_mod(alloc, message)?),
        PORT_MOD => Message::PortMod(read_port_mod(message)?),
        TABLE_MOD => Message::TableMod(read_table_mod(message)?),
        MULTIPART_REQUEST => Message::Multipart(read_multipart(alloc, message)?),
        BARRIER_REQUEST => Message::BarrierRequest,
        ROLE_REQUEST => Message::RoleRequest(read_role_request(message)?),
        GET_ASYNC_REQUEST => Message::GetAsyncRequest,
        SET_ASYNC => Message::SetAsync(read_async_masks(message)),
        _ => return Err(ReadError::Refused(OFPBRC_BAD_TYPE)),
    })
}

/// The message that the bytes encode, all of them, and that a controller of that role may send.
///
/// Other bytes are refused with one code, by the first that applies: what `check_head` checks; a PACKET_OUT, FLOW_MOD,
/// GROUP_MOD, PORT_MOD or TABLE_MOD of a slave (1/10); and then by the message.
///
/// Of a FLOW_MOD: a command above 4 (5/6), a table above 15 (5/2; but a DELETE command may name 255, all tables) and flags
/// above 31 (5/7), its match, and, for ADD and the MODIFY commands, its instructions with their actions, and a field that is
/// set without its prerequisites in the match (2/10). A DELETE command has no instructions: what follows its match is
/// ignored. Of a PACKET_OUT: an ingress port that is neither 1 to OFPP_MAX nor OFPP_CONTROLLER (1/11), its actions, and,
/// where it names no buffer, a frame below 14 or above 9,216 bytes (1/12). Of a GROUP_MOD: a command above 2 (6/11); a number
/// above OFPG_MAX (6/1; a DELETE may name OFPG_ALL, and nothing else of it is read); a type that is not ALL, INDIRECT or
/// FAST-FAILOVER (6/10); bucket by bucket, the 17th (6/4), a length below 16, not a multiple of 8 or past the end (6/12), and
/// its actions. Of a PORT_MOD: a mask with a bit outside of PORT_DOWN, NO_RECV, NO_FWD and NO_PACKET_IN (7/2). Of a TABLE_MOD:
/// a table that is neither 0 to 15 nor 255 (8/0). Of a SET_CONFIG: flags other than 0 (10/0). Of a ROLE_REQUEST: a role above
/// 3 (11/2). Of a MULTIPART_REQUEST: an unsupported type (1/2), the flag for more parts (1/13), a length that is not
/// that of its type (1/6; 24 for PORT_STATS and GROUP, 56 at least for FLOW and AGGREGATE, and 16 for the others), a table
/// that is neither 0 to 15 nor 255 (1/9), and its match, after which nothing is read.
#[tactic(auto, unfolding(crate::specs::Messages::message_from))]
pub fn read_message_as(alloc: Global, role: Role, message: &[u8]) -> Result<Message, ReadError>
    ensures reads { Reads result (message_from role message.now) }
    ensures sound { IfOk result IsSoundMessage }
{
    match check_sender(role, message) {
        Ok(()) => read_body(alloc, message),
        Err(code) => Err(ReadError::Refused(code)),
    }
}

/// The message that the bytes encode, all of them, whoever sends it: `read_message_as` of a controller whose role is equal.
pub fn read_message(alloc: Global, message: &[u8]) -> Result<Message, ReadError>
    ensures reads { Reads result (message_of message.now) }
    ensures sound { IfOk result IsSoundMessage }
{
    read_message_as(alloc, Role::Equal, message)
}
