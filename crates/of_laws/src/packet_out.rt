//! PACKET_OUT (OpenFlow 1.3.5, 7.3.7).
ghost use Rattle.std.specs.Prelude.{◌≡◌, ◌<◌, ◌≤◌, ◌^◌, true, length, IfOk};
ghost use Rattle.of_messages.specs.declared.message.Message.TheVariants.{PacketOut as IsPacketOut};
ghost use Rattle.of_laws.specs.{Grammar.buffer_of, Canonical.packet_data_bytes as frame_in, Sound.is_sound, Sound.is_sound_packet, Written.IsWritten};

use crate::header::begin;
use of_actions::write_actions;
use of_formats::messages::PACKET_OUT;
use of_messages::{PacketData, PacketOut};
use of_wire::limits::OFP_NO_BUFFER;
use of_wire::{Bytes, put_u16, put_u32};
use std::alloc::{AllocError, Global};

fn buffer(packet: &PacketData) -> u32
    ensures { result ≡ buffer_of packet.now }
{
    match packet {
        PacketData::Buffered(number) => *number,
        PacketData::Frame(_) => OFP_NO_BUFFER,
    }
}

// The bytes of a frame; none of a held packet.
fn frame_of(packet: &PacketData) -> &[u8]
    requires { is_sound_packet packet.now ≡ true }
    ensures frame { result.now ≡ frame_in packet.now }
    ensures most { length result.now ≤ 9216 }
{
    match packet {
        PacketData::Buffered(_) => &[],
        PacketData::Frame(frame) => frame.as_slice(),
    }
}

/// A PACKET_OUT, with nothing behind its actions if the switch holds the packet (OpenFlow 1.3.5, 7.3.7).
pub(crate) fn write_packet_out(alloc: Global, xid: u32, m: &PacketOut) -> Result<Bytes, AllocError>
    requires { is_sound (IsPacketOut m.now) ≡ true }
    ensures { IfOk result (IsWritten xid (IsPacketOut m.now)) }
{
    let actions = write_actions(alloc, &m.actions)?;
    let frame = frame_of(&m.packet);
    let mut out = begin(alloc, PACKET_OUT, 16 + actions.len() + frame.len(), xid)?;
    put_u32(&mut out, buffer(&m.packet))?;
    put_u32(&mut out, m.in_port)?;
    put_u16(&mut out, actions.len() as u16)?;
    out.extend_from_slice(&[0; 6])?;
    out.extend_from_slice(&actions)?;
    out.extend_from_slice(frame)?;
    Ok(Bytes::new(out))
}
