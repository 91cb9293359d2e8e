//! What outputs emit.
ghost use Rattle.std.specs.{Prelude.◌≡◌, Prelude.IfOk, Prelude.OnOk, Option.option_copied};
ghost use Rattle.of_machine.specs.Rows.{emission, to_port, packet_in_emitted, flooded, output_reason};
ghost use Rattle.of_machine.specs.Gained.{Gains};

use crate::data::{Count, Item, Outcome, Packet, ToController};
use crate::packet_frame::PacketFrame;
use of_ports::{Port, find_port};
use of_wire::limits::{OFPP_ALL, OFPP_CONTROLLER, OFPP_FLOOD, OFPP_IN_PORT};
use of_wire::{Bytes, PacketInReason};
use std::alloc::{AllocError, Global};

/// What an output to this port, or to a reserved one that is not TABLE, emits; `max_len` is for the controller alone
/// (OpenFlow 1.3.5, 7.2.5).
pub(crate) fn emit(
    ports: &[Port],
    port: u32,
    max_len: u16,
    packet: &Packet<'_>,
    outcome: &mut Outcome,
) -> Result<(), AllocError>
    ensures { OnOk result (Gains outcome.old (emission ports.now packet.now port max_len) outcome.new) }
{
    if port == OFPP_IN_PORT {
        return send(find_port(ports, packet.ingress), packet, outcome);
    }
    if port == OFPP_FLOOD || port == OFPP_ALL {
        return flood(ports, packet, outcome);
    }
    if port == OFPP_CONTROLLER {
        return to_controller(reason_of_output(packet), Some(max_len), packet, outcome);
    }
    if port == packet.ingress {
        return Ok(());
    }
    send(find_port(ports, port), packet, outcome)
}

fn reason_of_output(packet: &Packet<'_>) -> PacketInReason
    ensures { result ≡ output_reason packet.now }
{
    if packet.miss {
        PacketInReason::NoMatch
    } else {
        PacketInReason::Action
    }
}

/// The packet to the controller, with the `max_len` of the OUTPUT that made it, if one did.
pub(crate) fn to_controller(
    reason: PacketInReason,
    max_len: Option<u16>,
    packet: &Packet<'_>,
    outcome: &mut Outcome,
) -> Result<(), AllocError>
    ensures { OnOk result (Gains outcome.old (packet_in_emitted reason max_len packet.now) outcome.new) }
{
    let frame = bytes_of(*outcome.items.allocator(), &packet.frame)?;
    outcome.items.push(Item::PacketIn(ToController {
        reason,
        table: packet.table,
        cookie: packet.cookie,
        ingress: packet.ingress,
        metadata: packet.metadata,
        max_len,
        frame,
    }))?;
    Ok(())
}

// The frame's bytes again, for what leaves the switch.
fn bytes_of(alloc: Global, frame: &PacketFrame<'_>) -> Result<Bytes, AllocError>
    ensures { IfOk result (λ bytes. bytes ≡ frame.now) }
{
    Bytes::from_slice(alloc, frame.bytes())
}

// Out of a port, where it exists and may send.
fn send(port: Option<&Port>, packet: &Packet<'_>, outcome: &mut Outcome) -> Result<(), AllocError>
    ensures { OnOk result (Gains outcome.old (to_port (option_copied port.entry) packet.now) outcome.new) }
{
    if let Some(port) = port {
        if port.may_send() {
            let frame = bytes_of(*outcome.items.allocator(), &packet.frame)?;
            outcome.items.push(Item::Sent {
                port: port.number,
                frame,
            })?;
        } else {
            outcome.counts.push(Count::TxDropped(port.number))?;
        }
    }
    Ok(())
}

// Out of each port that may send but the ingress port.
fn flood(ports: &[Port], packet: &Packet<'_>, outcome: &mut Outcome) -> Result<(), AllocError>
    ensures { OnOk result (Gains outcome.old (flooded ports.now packet.now) outcome.new) }
{
    for port in ports {
        if port.may_send() && port.number != packet.ingress {
            let frame = bytes_of(*outcome.items.allocator(), &packet.frame)?;
            outcome.items.push(Item::Sent {
                port: port.number,
                frame,
            })?;
        }
    }
    Ok(())
}
