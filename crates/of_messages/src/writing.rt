//! The bytes of messages that the switch sends.
ghost use Rattle.std.specs.Prelude.{◌≡◌, ◌≤◌, ◌++◌, length, OnOk, IfOk};
ghost use Rattle.of_messages.specs.Written.{message_header, hello_bytes, error_bytes, echo_reply_bytes, barrier_reply_bytes, flow_removed_fixed_part, flow_removed_bytes, packet_fields, packet_in_fixed_part, packet_in_bytes};
ghost use Rattle.of_oxm.specs.Canonical.{canonical};

use crate::message::{FlowRemoved, PacketIn};
use crate::message_bytes::MessageBytes;
use of_formats::messages::{BARRIER_REPLY, ECHO_REPLY, ERROR, FLOW_REMOVED, PACKET_IN};
use of_oxm::{Match, write_match};
use of_wire::{Bytes, Code, put_u16, put_u32, put_u64};
use std::alloc::{AllocError, Global};

// A header: version 4, type, length and transaction id.
pub(crate) fn put_header(
    out: &mut Vec<u8>,
    kind: u8,
    length: usize,
    xid: u32,
) -> Result<(), AllocError>
    ensures { OnOk result (out.new.items ≡ out.old.items ++ message_header kind length xid) }
{
    let high = (length / 256 % 256) as u8;
    let low = (length % 256) as u8;
    out.extend_from_slice(&[4, kind, high, low])?;
    put_u32(out, xid)
}

/// The HELLO of this switch: version 4, whose bitmap has bit 4 alone (OpenFlow 1.3.5, 7.5.1).
#[tactic(auto, using(crate::proofs::Lengths::hello_is_message))]
pub fn write_hello(alloc: Global) -> Result<MessageBytes, AllocError>
    ensures { IfOk result (λ bytes. bytes ≡ hello_bytes) }
{
    let bytes = Bytes::from_slice(alloc, &[4, 0, 0, 16, 0, 0, 0, 0, 0, 1, 0, 8, 0, 0, 0, 16])?;
    Ok(MessageBytes::new(bytes))
}

/// An ERROR with its data, 65,523 bytes at most (OpenFlow 1.3.5, 7.4.4).
#[tactic(auto, using(crate::proofs::Lengths::error_is_message))]
pub fn write_error(
    alloc: Global,
    xid: u32,
    code: Code,
    body: &[u8],
) -> Result<MessageBytes, AllocError>
    requires { length body.now ≤ 65523 }
    ensures { IfOk result (λ bytes. bytes ≡ error_bytes xid code body.now) }
{
    let mut out = Vec::new(alloc);
    put_header(&mut out, ERROR, 12 + body.len(), xid)?;
    put_u16(&mut out, code.kind)?;
    put_u16(&mut out, code.code)?;
    out.extend_from_slice(body)?;
    Ok(MessageBytes::new(Bytes::new(out)))
}

/// The ECHO_REPLY that gives a request's data back, 65,527 bytes at most (OpenFlow 1.3.5, 7.5.3).
#[tactic(auto, using(crate::proofs::Lengths::echo_reply_is_message))]
pub fn write_echo_reply(alloc: Global, xid: u32, body: &[u8]) -> Result<MessageBytes, AllocError>
    requires { length body.now ≤ 65527 }
    ensures { IfOk result (λ bytes. bytes ≡ echo_reply_bytes xid body.now) }
{
    let mut out = Vec::new(alloc);
    put_header(&mut out, ECHO_REPLY, 8 + body.len(), xid)?;
    out.extend_from_slice(body)?;
    Ok(MessageBytes::new(Bytes::new(out)))
}

/// A BARRIER_REPLY (OpenFlow 1.3.5, 7.3.8).
#[tactic(auto, using(crate::proofs::Lengths::barrier_reply_is_message))]
pub fn write_barrier_reply(alloc: Global, xid: u32) -> Result<MessageBytes, AllocError>
    ensures { IfOk result (λ bytes. bytes ≡ barrier_reply_bytes xid) }
{
    let mut out = Vec::new(alloc);
    put_header(&mut out, BARRIER_REPLY, 8, xid)?;
    Ok(MessageBytes::new(Bytes::new(out)))
}

// The fields before the match, 40 bytes.
fn put_flow_removed(out: &mut Vec<u8>, removed: &FlowRemoved) -> Result<(), AllocError>
    ensures { OnOk result (out.new.items ≡ out.old.items ++ flow_removed_fixed_part removed.now) }
{
    put_u64(out, removed.cookie)?;
    put_u16(out, removed.priority)?;
    out.extend_from_slice(&[removed.reason.number(), removed.table])?;
    put_u32(out, removed.duration_sec)?;
    put_u32(out, removed.duration_nsec)?;
    put_u16(out, removed.idle_timeout)?;
    put_u16(out, removed.hard_timeout)?;
    put_u64(out, removed.packets)?;
    put_u64(out, removed.bytes)
}

/// The FLOW_REMOVED of an entry with this match (OpenFlow 1.3.5, 7.4.2).
#[tactic(auto, using(crate::proofs::Appended::length_front, crate::proofs::Lengths::flow_removed_is_message))]
pub fn write_flow_removed(
    alloc: Global,
    xid: u32,
    removed: &FlowRemoved,
    fields: &Match,
) -> Result<MessageBytes, AllocError>
    ensures { IfOk result (λ bytes. bytes ≡ flow_removed_bytes xid removed.now fields.now) }
{
    let encoding = write_match(alloc, fields)?;
    let mut out = Vec::new(alloc);
    put_header(&mut out, FLOW_REMOVED, 48 + encoding.len(), xid)?;
    put_flow_removed(&mut out, removed)?;
    out.extend_from_slice(&encoding)?;
    Ok(MessageBytes::new(Bytes::new(out)))
}

// The fields before the match, 16 bytes.
fn put_packet_in(out: &mut Vec<u8>, packet: &PacketIn) -> Result<(), AllocError>
    ensures { OnOk result (out.new.items ≡ out.old.items ++ packet_in_fixed_part packet.now) }
{
    put_u32(out, packet.buffer)?;
    put_u16(out, packet.total_len)?;
    out.extend_from_slice(&[packet.reason.number(), packet.table])?;
    put_u64(out, packet.cookie)
}

// The match of a packet, 16 bytes, or 24 with its metadata.
fn put_packet_fields(out: &mut Vec<u8>, in_port: u32, metadata: u64) -> Result<(), AllocError>
    ensures { OnOk result (out.new.items ≡ out.old.items ++ canonical (packet_fields in_port metadata)) }
{
    if metadata == 0 {
        out.extend_from_slice(&[0, 1, 0, 12, 0x80, 0, 0, 4])?;
        put_u32(out, in_port)?;
        put_u32(out, 0)
    } else {
        out.extend_from_slice(&[0, 1, 0, 24, 0x80, 0, 0, 4])?;
        put_u32(out, in_port)?;
        out.extend_from_slice(&[0x80, 0, 4, 8])?;
        put_u64(out, metadata)
    }
}

// The size of that match.
fn packet_fields_size(in_port: u32, metadata: u64) -> usize
    ensures size { result ≡ length (canonical (packet_fields in_port metadata)) }
    ensures most { result ≤ 24 }
{
    let _ = in_port;
    if metadata == 0 { 16 } else { 24 }
}

/// The PACKET_IN of a frame, whose first bytes are the data: all of them, unless the frame is held (OpenFlow 1.3.5, 7.4.1).
///
/// The data have at most 65,485 bytes, so that the message's length fits its field.
pub fn write_packet_in(
    alloc: Global,
    xid: u32,
    packet: &PacketIn,
    data: &[u8],
) -> Result<MessageBytes, AllocError>
    requires { length «data».now ≤ 65485 }
    ensures { IfOk result (λ bytes. bytes ≡ packet_in_bytes xid packet.now «data».now) }
{
    let length = 26 + packet_fields_size(packet.in_port, packet.metadata) + data.len();
    let mut out = Vec::with_capacity(alloc, length)?;
    put_header(&mut out, PACKET_IN, length, xid)?;
    put_packet_in(&mut out, packet)?;
    put_packet_fields(&mut out, packet.in_port, packet.metadata)?;
    out.extend_from_slice(&[0, 0])?;
    out.extend_from_slice(data)?;
    Ok(MessageBytes::new(Bytes::new(out)))
}
