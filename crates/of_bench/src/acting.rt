//! Reading lists of actions.

use crate::clock::{Timed, time};
use of_actions::read_actions;
use std::alloc::Global;
use std::io;

/// Eight actions (OpenFlow 1.3.5, 7.2.5).
const ACTIONS: [u8; 104] = [
    0, 17, 0, 8, 0x81, 0x00, 0, 0, // PUSH_VLAN 0x8100
    0, 25, 0, 16, 0x80, 0, 0x0c, 2, 0x10, 0x64, 0, 0, 0, 0, 0, 0, // SET_FIELD VLAN_VID 100
    0, 25, 0, 16, 0x80, 0, 0x06, 6, 2, 0, 0, 0, 0, 3, 0, 0, // SET_FIELD ETH_DST
    0, 25, 0, 16, 0x80, 0, 0x18, 4, 10, 0, 0, 9, 0, 0, 0, 0, // SET_FIELD IPV4_DST
    0, 25, 0, 16, 0x80, 0, 0x1c, 2, 0x1f, 0x90, 0, 0, 0, 0, 0, 0, // SET_FIELD TCP_DST 8080
    0, 24, 0, 8, 0, 0, 0, 0, // DEC_NW_TTL
    0, 18, 0, 8, 0, 0, 0, 0, // POP_VLAN
    0, 0, 0, 16, 0, 0, 0, 2, 0, 0, 0, 0, 0, 0, 0, 0, // OUTPUT to port 2
];

#[derive(Drop)]
struct ReadActions {
    alloc: Global,
    bytes: [u8; 104],
}

impl Timed for ReadActions {
    fn call(&mut self, turn: u64) -> u64 {
        // The low byte of the address.
        self.bytes[51] = (turn % 256) as u8;
        match read_actions(self.alloc, &self.bytes, false) {
            Ok(list) => list.len() as u64,
            Err(_) => 0,
        }
    }
}

/// `read_actions` of a list of eight actions, four of them SET_FIELD.
pub fn time_read_actions(rt: &HostRuntime) -> io::Result<()> {
    let alloc = rt.alloc();
    let bytes = ACTIONS;
    time(rt, "read_actions", &mut ReadActions { alloc, bytes })
}
