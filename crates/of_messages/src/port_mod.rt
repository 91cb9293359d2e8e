//! PORT_MOD, and ports as PORT_STATUS describes them (OpenFlow 1.3.5, 7.2.1, 7.3.4.3 and 7.4.3).
ghost use Rattle.std.specs.Prelude.{◌≡◌, ◌≤◌, length};
ghost use Rattle.of_wire.specs.Failures.{Reads};
ghost use Rattle.of_messages.specs.PortMods.{port_mod_of};
ghost use Rattle.of_formats.specs.Structs.{bytes_from};

use crate::reading::rest_from;
use byteorder::{BigEndian, ByteOrder};
use of_wire::ReadError;
use of_wire::codes::OFPPMFC_BAD_CONFIG;

/// OFPPC_PORT_DOWN, OFPPC_NO_RECV, OFPPC_NO_FWD and OFPPC_NO_PACKET_IN, 1, 4, 32 and 64.
const KNOWN_BITS: u32 = 101;

/// A PORT_MOD (OpenFlow 1.3.5, 7.3.4.3). The features that a port is to advertise are ignored: ports have none.
#[derive(Clone, Copy, Debug, PartialEq, Eq)]
pub struct PortMod {
    pub port: u32,
    /// The hardware address that the port is to have.
    pub hw: [u8; 6],
    /// Bits of OFPPC_*.
    pub config: u32,
    /// The bits of the configuration that are to change: of OFPPC_PORT_DOWN, NO_RECV, NO_FWD and NO_PACKET_IN.
    pub mask: u32,
}

/// A port as messages describe it, without features and speeds (OpenFlow 1.3.5, 7.2.1).
#[derive(Clone, Copy, PartialEq, Eq)]
pub struct PortDescription {
    pub number: u32,
    pub hw: [u8; 6],
    /// Padded with zeros.
    pub name: [u8; 16],
    /// Bits of OFPPC_*.
    pub config: u32,
    /// Bits of OFPPS_*.
    pub state: u32,
}

/// Why a PORT_STATUS is sent (OpenFlow 1.3.5, 7.4.3).
#[derive(Clone, Copy, PartialEq, Eq)]
pub enum PortStatusReason {
    Add,
    Delete,
    Modify,
}

fn read_hw(message: &[u8]) -> [u8; 6]
    requires { 40 ≤ length message.now }
    ensures { result ≡ bytes_from 16 6 message.now }
{
    [
        message[16],
        message[17],
        message[18],
        message[19],
        message[20],
        message[21],
    ]
}

pub(crate) fn read_port_mod(message: &[u8]) -> Result<PortMod, ReadError>
    requires { 40 ≤ length message.now }
    ensures { Reads result (port_mod_of message.now) }
{
    let mask = BigEndian::read_u32(rest_from(message, 28));
    if mask & KNOWN_BITS != mask {
        return Err(ReadError::Refused(OFPPMFC_BAD_CONFIG));
    }
    Ok(PortMod {
        port: BigEndian::read_u32(rest_from(message, 8)),
        hw: read_hw(message),
        config: BigEndian::read_u32(rest_from(message, 24)),
        mask,
    })
}
