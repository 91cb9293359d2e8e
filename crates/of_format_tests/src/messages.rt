use crate::actions::applies;
use crate::checks::{is_written, same};
use crate::{channel, groups_and_ports};
use of_actions::Action;
use of_messages::{
    AsyncMasks, FlowMod, FlowRemoved, FlowRemovedReason, MessageBytes, PacketData, PacketIn,
    PacketInReason, PacketOut, PortDescription, PortStatusReason, Role, RoleMasks, SwitchConfig,
    check_head, write_async_reply, write_barrier_reply, write_config_reply, write_echo_reply,
    write_error, write_features_reply, write_flow_removed, write_hello, write_packet_in,
    write_port_status, write_role_reply,
};
use of_oxm::Match;
use of_wire::Code;
use std::alloc::{AllocError, Global};
use std::process::Abort;
use std::test::Fail;

pub(crate) mod rows;

#[test]
fn older_version(rt: HostRuntime) {
    let older = check_head(&[1, 20, 0, 8, 0, 0, 0, 7]);
    let refused = Err(Code { kind: 1, code: 0 });
    same(&rt, "version 1", &older, &refused);
}

/// A frame of 60 bytes whose EtherType, 0x88b5, is for experiments.
const FRAME: [u8; 60] = [
    2, 0, 0, 0, 0, 2, 2, 0, 0, 0, 0, 1, 0x88, 0xb5, // Ethernet header
    0, 0, 0, 0, 0, 0, 0, 0, 0, 0, 0, 0, 0, 0, 0, 0, 0, 0, 0, 0, 0, 0, 0, //
    0, 0, 0, 0, 0, 0, 0, 0, 0, 0, 0, 0, 0, 0, 0, 0, 0, 0, 0, 0, 0, 0, 0, //
];

const NO_MATCH: PacketIn = PacketIn {
    buffer: 0xffff_ffff,
    total_len: 60,
    reason: PacketInReason::NoMatch,
    table: 0,
    cookie: 0,
    in_port: 1,
    metadata: 0,
};

const INVALID_TTL: PacketIn = PacketIn {
    buffer: 0xffff_ffff,
    total_len: 60,
    reason: PacketInReason::InvalidTtl,
    table: 2,
    cookie: 0,
    in_port: 1,
    metadata: 0x0102_0304_0506_0708,
};

const HELD: PacketIn = PacketIn {
    buffer: 1,
    total_len: 60,
    reason: PacketInReason::NoMatch,
    table: 0,
    cookie: 0,
    in_port: 1,
    metadata: 0,
};

const MASKS: AsyncMasks = AsyncMasks {
    packet_in: RoleMasks {
        master: 7,
        slave: 0,
    },
    port_status: RoleMasks {
        master: 6,
        slave: 5,
    },
    flow_removed: RoleMasks {
        master: 15,
        slave: 1,
    },
};

const PORT: PortDescription = PortDescription {
    number: 2,
    hw: [2, 0, 0, 0, 0, 0xa2],
    name: *b"p2\0\0\0\0\0\0\0\0\0\0\0\0\0\0",
    config: 0,
    state: 1,
};

/// A message that is written.
enum Written {
    Hello,
    EchoReply,
    BarrierReply,
    Error(Code),
    PacketIn(PacketIn),
    /// With the first 16 bytes of the frame.
    StartOfHeld(PacketIn),
    Features,
    Config(SwitchConfig),
    Role(Role, Option<u64>),
    Async,
    PortStatus,
}

fn write(alloc: Global, message: &Written) -> Result<MessageBytes, AllocError> {
    match message {
        Written::Hello => write_hello(alloc),
        Written::EchoReply => write_echo_reply(alloc, 9, &[0xab, 0xcd]),
        Written::BarrierReply => write_barrier_reply(alloc, 7),
        Written::Error(code) => write_error(alloc, 5, *code, &[4, 99, 0, 8, 0, 0, 0, 5]),
        Written::PacketIn(packet) => write_packet_in(alloc, 0, packet, &FRAME),
        Written::StartOfHeld(packet) => write_packet_in(alloc, 0, packet, &FRAME[..16]),
        Written::Features => write_features_reply(alloc, 4, 0x0102_0304_0506_0708),
        Written::Config(config) => write_config_reply(alloc, 5, *config),
        Written::Role(role, generation) => write_role_reply(alloc, 6, *role, *generation),
        Written::Async => write_async_reply(alloc, 8, MASKS),
        Written::PortStatus => write_port_status(alloc, 0, PortStatusReason::Modify, &PORT),
    }
}

/// Messages, and their bytes.
const WRITTEN: &[(Written, &str)] = &[
    (Written::Hello, rows::HELLO),
    (Written::EchoReply, rows::ECHO_REPLY),
    (Written::BarrierReply, rows::BARRIER_REPLY),
    (Written::Error(Code { kind: 1, code: 1 }), rows::ERROR),
    (Written::PacketIn(NO_MATCH), rows::PACKET_IN),
    (
        Written::PacketIn(INVALID_TTL),
        rows::PACKET_IN_WITH_METADATA,
    ),
    (Written::StartOfHeld(HELD), rows::PACKET_IN_OF_HELD),
    (Written::Features, channel::rows::FEATURES_REPLY),
    (
        Written::Config(SwitchConfig { miss_send_len: 128 }),
        channel::rows::CONFIG_REPLY,
    ),
    (
        Written::Role(Role::Master, Some(7)),
        channel::rows::MASTER_REPLY,
    ),
    (Written::Role(Role::Equal, None), channel::rows::EQUAL_REPLY),
    (Written::Async, channel::rows::ASYNC_REPLY),
    (Written::PortStatus, groups_and_ports::rows::PORT_STATUS),
];

fn is_message(
    rt: &impl Abort,
    alloc: Global,
    (message, wanted): &(Written, &str),
) -> Result<(), Fail> {
    is_written(rt, alloc, write(alloc, message)?.as_slice(), wanted)
}

#[test]
fn written_messages(rt: HostRuntime) -> Result<(), Fail> {
    for row in WRITTEN {
        is_message(&rt, rt.alloc(), row)?;
    }
    Ok(())
}

/// Asserts that an entry sends to port 2 what comes in at port 1.
pub(crate) fn sends_on(rt: &impl Abort, flow_mod: &FlowMod) {
    assert!(rt; flow_mod.fields.len() == 1);
    let port = flow_mod.fields.fields()[0].value;
    same(rt, "its port", &port, &1);
    let output = Action::Output {
        port: 2,
        max_len: 0,
    };
    let on = applies(flow_mod.instructions.as_slice(), &[output]);
    same(rt, "it sends on", &on, &true);
}

const REMOVED: FlowRemoved = FlowRemoved {
    cookie: 0x0102_0304_0506_0708,
    priority: 100,
    reason: FlowRemovedReason::HardTimeout,
    table: 5,
    duration_sec: 300,
    duration_nsec: 1_000_000,
    idle_timeout: 60,
    hard_timeout: 300,
    packets: 3,
    bytes: 0x1_0000_0000,
};

#[test]
fn flow_removed(rt: HostRuntime) -> Result<(), Fail> {
    let fields = Match::of_in_port(rt.alloc(), 1)?;
    let written = write_flow_removed(rt.alloc(), 0x0a0b_0c0d, &REMOVED, &fields)?;
    is_written(&rt, rt.alloc(), written.as_slice(), rows::FLOW_REMOVED)
}

/// Asserts that a PACKET_OUT sends to the tables what came in at a port.
pub(crate) fn goes_to_tables(rt: &impl Abort, packet_out: &PacketOut, in_port: u32) {
    let to_table = Action::Output {
        port: 0xffff_fff9,
        max_len: 0,
    };
    same(rt, "the port", &packet_out.in_port, &in_port);
    let actions = packet_out.actions.as_slice();
    same(rt, "the actions", &actions, &[to_table].as_slice());
}

/// Asserts that a PACKET_OUT names this buffer, or else brings the frame with it.
pub(crate) fn brings(rt: &impl Abort, packet: &PacketData, buffer: Option<u32>) {
    let (found, frame) = match packet {
        PacketData::Frame(frame) => (None, frame.as_slice()),
        PacketData::Buffered(number) => (Some(*number), FRAME.as_slice()),
    };
    same(rt, "the buffer", &found, &buffer);
    same(rt, "the frame", &frame, &FRAME.as_slice());
}
