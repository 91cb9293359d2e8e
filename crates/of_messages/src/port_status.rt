//! PORT_STATUS, as the switch sends it (OpenFlow 1.3.5, 7.4.3).
ghost use Rattle.std.specs.Prelude.{◌≡◌, ◌++◌, length, OnOk, IfOk};
ghost use Rattle.of_messages.specs.Written.{port_bits, port_bytes, port_names, port_status_bytes, status_number};

use crate::message_bytes::MessageBytes;
use crate::port_mod::{PortDescription, PortStatusReason};
use crate::writing::put_header;
use of_formats::messages::PORT_STATUS;
use of_wire::{Bytes, put_u32};
use std::alloc::{AllocError, Global};

/// The size of a PORT_STATUS: its header, the reason with its padding, and the port.
const SIZE: usize = 80;

fn number_of(reason: PortStatusReason) -> u8
    ensures { result ≡ status_number reason }
{
    match reason {
        PortStatusReason::Add => 0,
        PortStatusReason::Delete => 1,
        PortStatusReason::Modify => 2,
    }
}

// The number, hardware address and name of a port, 32 bytes.
#[tactic(auto, unfolding(crate::specs::Written::port_names))]
fn put_names(out: &mut Vec<u8>, port: &PortDescription) -> Result<(), AllocError>
    ensures text { OnOk result (out.new.items ≡ out.old.items ++ port_names port.now) }
    ensures size { OnOk result (length (port_names port.now) ≡ 32) }
{
    put_u32(out, port.number)?;
    out.extend_from_slice(&[0, 0, 0, 0])?;
    out.extend_from_slice(&port.hw)?;
    out.extend_from_slice(&[0, 0])?;
    out.extend_from_slice(&port.name)
}

// Its configuration and state, and neither features nor speeds, 32 bytes.
fn put_bits(out: &mut Vec<u8>, port: &PortDescription) -> Result<(), AllocError>
    ensures { OnOk result (out.new.items ≡ out.old.items ++ port_bits port.now) }
{
    put_u32(out, port.config)?;
    put_u32(out, port.state)?;
    out.extend_from_slice(&[0; 24])
}

/// Appends the 64 bytes of a port (OpenFlow 1.3.5, 7.2.1).
#[tactic(auto, using(crate::proofs::PortLemmas::length_port))]
pub fn put_port(out: &mut Vec<u8>, port: &PortDescription) -> Result<(), AllocError>
    ensures text { OnOk result (out.new.items ≡ out.old.items ++ port_bytes port.now) }
    ensures size { OnOk result (length (port_bytes port.now) ≡ 64) }
{
    put_names(out, port)?;
    put_bits(out, port)
}

/// The PORT_STATUS of a port (OpenFlow 1.3.5, 7.4.3).
#[tactic(auto, using(crate::proofs::PortLemmas::port_status_is_message))]
pub fn write_port_status(
    alloc: Global,
    xid: u32,
    reason: PortStatusReason,
    port: &PortDescription,
) -> Result<MessageBytes, AllocError>
    ensures { IfOk result (λ bytes. bytes ≡ port_status_bytes xid reason port.now) }
{
    let mut out = Vec::with_capacity(alloc, SIZE)?;
    put_header(&mut out, PORT_STATUS, SIZE, xid)?;
    out.extend_from_slice(&[number_of(reason), 0, 0, 0, 0, 0, 0, 0])?;
    put_names(&mut out, port)?;
    put_bits(&mut out, port)?;
    Ok(MessageBytes::new(Bytes::new(out)))
}
