//! Frames that are held, and sent on by their buffer ids.

use crate::clock::{Timed, time};
use crate::flows::{PORT_MATCH, push_flow};
use crate::frames::TCP;
use crate::lookups::Lookups;
use crate::switching::{chunk, switch_after};
use of_switch::{Effect, Switch};
use std::alloc::{AllocError, Global};
use std::io;

/// APPLY_ACTIONS of an OUTPUT of 14 bytes to the controller.
const TELL: [u8; 24] = [
    0, 4, 0, 24, 0, 0, 0, 0, // APPLY_ACTIONS
    0, 0, 0, 16, 0xff, 0xff, 0xff, 0xfd, 0, 14, 0, 0, 0, 0, 0, 0, // OUTPUT
];

/// A PACKET_OUT of a held frame to port 2: its bytes 8 to 11 are the buffer id (OpenFlow 1.3.5, 7.3.7).
const SEND_ON: [u8; 40] = [
    4, 13, 0, 40, 0, 0, 0, 9, // header
    0, 0, 0, 0, 0xff, 0xff, 0xff, 0xfd, // buffer id, ingress port CONTROLLER
    0, 16, 0, 0, 0, 0, 0, 0, // length of the actions, padding
    0, 0, 0, 16, 0, 0, 0, 2, 0, 0, 0, 0, 0, 0, 0, 0, // OUTPUT
];

#[derive(Drop)]
struct Holding {
    switch: Switch<Lookups>,
    request: [u8; 40],
}

impl Timed for Holding {
    fn call(&mut self, _turn: u64) -> u64 {
        let id = match self.switch.frame(1, &TCP) {
            Ok(effects) => buffer_of(&effects),
            Err(_) => None,
        };
        let Some(id) = id else {
            return 0;
        };
        self.request[8] = id[0];
        self.request[9] = id[1];
        self.request[10] = id[2];
        self.request[11] = id[3];
        chunk(&mut self.switch, &self.request).unwrap_or(0)
    }
}

// The buffer id of the PACKET_IN that is the first effect (OpenFlow 1.3.5, 7.4.1).
fn buffer_of(effects: &[Effect]) -> Option<[u8; 4]> {
    let Some(Effect::Answer(message)) = effects.first() else {
        return None;
    };
    let bytes = message.as_slice();
    if bytes.len() < 12 {
        return None;
    }
    Some([bytes[8], bytes[9], bytes[10], bytes[11]])
}

// A flow for each frame of port 1.
fn tell_all(alloc: Global) -> Result<Vec<u8>, AllocError> {
    let mut messages = Vec::new(alloc);
    push_flow(&mut messages, 0, &PORT_MATCH, &TELL)?;
    Ok(messages)
}

/// A frame of 60 bytes of which the controller gets 14, and the PACKET_OUT that sends it on by its buffer id.
pub fn time_held(rt: &HostRuntime) -> io::Result<()> {
    match switch_after(rt.alloc(), 2, tell_all(rt.alloc())) {
        Some(switch) => {
            let request = SEND_ON;
            time(rt, "held", &mut Holding { switch, request })
        }
        None => println!(rt; "held: no memory"),
    }
}
