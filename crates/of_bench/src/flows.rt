//! FLOW_MODs of the tables that frames go through (OpenFlow 1.3.5, 7.3.4.1).

use crate::frames::WEB_MATCH;
use std::alloc::AllocError;

/// A match of IN_PORT 1.
pub const PORT_MATCH: [u8; 16] = [0, 1, 0, 12, 0x80, 0, 0, 4, 0, 0, 0, 1, 0, 0, 0, 0];

/// A match of ETH_TYPE 0x0800.
pub const IPV4_MATCH: [u8; 16] = [0, 1, 0, 10, 0x80, 0, 0x0a, 2, 0x08, 0x00, 0, 0, 0, 0, 0, 0];

/// APPLY_ACTIONS of an OUTPUT to port 2.
pub const OUTPUT: [u8; 24] = [
    0, 4, 0, 24, 0, 0, 0, 0, 0, 0, 0, 16, 0, 0, 0, 2, 0, 0, 0, 0, 0, 0, 0, 0,
];

/// APPLY_ACTIONS of a SET_FIELD of ETH_DST, and GOTO_TABLE 1.
pub const SET_ETHERNET: [u8; 32] = [
    0, 4, 0, 24, 0, 0, 0, 0, // APPLY_ACTIONS
    0, 25, 0, 16, 0x80, 0, 0x06, 6, 2, 0, 0, 0, 0, 3, 0, 0, // SET_FIELD
    0, 1, 0, 8, 1, 0, 0, 0, // GOTO_TABLE
];

/// WRITE_ACTIONS of a SET_FIELD of IPV4_DST and an OUTPUT to port 2, and GOTO_TABLE 2.
pub const WRITE_OUTPUT: [u8; 48] = [
    0, 3, 0, 40, 0, 0, 0, 0, // WRITE_ACTIONS
    0, 25, 0, 16, 0x80, 0, 0x18, 4, 10, 0, 0, 9, 0, 0, 0, 0, // SET_FIELD
    0, 0, 0, 16, 0, 0, 0, 2, 0, 0, 0, 0, 0, 0, 0, 0, // OUTPUT
    0, 1, 0, 8, 2, 0, 0, 0, // GOTO_TABLE
];

/// APPLY_ACTIONS of a SET_FIELD of TCP_DST to 8080, and GOTO_TABLE 3.
pub const SET_TRANSPORT: [u8; 32] = [
    0, 4, 0, 24, 0, 0, 0, 0, // APPLY_ACTIONS
    0, 25, 0, 16, 0x80, 0, 0x1c, 2, 0x1f, 0x90, 0, 0, 0, 0, 0, 0, // SET_FIELD
    0, 1, 0, 8, 3, 0, 0, 0, // GOTO_TABLE
];

/// WRITE_ACTIONS of DEC_NW_TTL.
pub const WRITE_AGING: [u8; 16] = [0, 3, 0, 16, 0, 0, 0, 0, 0, 24, 0, 8, 0, 0, 0, 0];

/// A match of ETH_TYPE 0x0800, IP_PROTO 6 and this TCP_DST.
pub fn web_match(port: u16) -> [u8; 24] {
    let mut fields = WEB_MATCH;
    let bytes = port.to_be_bytes();
    fields[19] = bytes[0];
    fields[20] = bytes[1];
    fields
}

/// Appends an ADD of a flow of priority 10: the bytes of its match, with their padding, and those of its instructions.
pub fn push_flow(
    messages: &mut Vec<u8>,
    table: u8,
    fields: &[u8],
    instructions: &[u8],
) -> Result<(), AllocError> {
    let length = 48usize
        .saturating_add(fields.len())
        .saturating_add(instructions.len());
    let length = ((length % 0x1_0000) as u16).to_be_bytes();
    messages.extend_from_slice(&[4, 14, length[0], length[1], 0, 0, 0, 2])?;
    messages.extend_from_slice(&[0; 16])?; // cookie and its mask
    messages.extend_from_slice(&[table, 0, 0, 0, 0, 0, 0, 10])?; // command, timeouts, priority
    messages.extend_from_slice(&[0xff; 12])?; // buffer, out port and out group
    messages.extend_from_slice(&[0; 4])?; // flags and padding
    messages.extend_from_slice(fields)?;
    messages.extend_from_slice(instructions)
}
