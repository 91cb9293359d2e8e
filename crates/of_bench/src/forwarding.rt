//! Frames that a switch sends on.

use crate::classifying::numbered_fields;
use crate::clock::{Timed, time};
use crate::flows;
use crate::flows::push_flow;
use crate::frames::TCP;
use crate::lookups::Lookups;
use crate::switching::switch_after;
use of_switch::{Effect, Switch};
use std::alloc::{AllocError, Global};
use std::io;

#[derive(Drop)]
struct Forward {
    switch: Switch<Lookups>,
    bytes: [u8; 60],
}

impl Timed for Forward {
    fn call(&mut self, turn: u64) -> u64 {
        // The low byte of the source address.
        self.bytes[29] = (turn % 256) as u8;
        match self.switch.frame(1, &self.bytes) {
            Ok(effects) => sent(&effects),
            Err(_) => 0,
        }
    }
}

// A number of the port and the length of the frame that is sent first; 0 where none is.
fn sent(effects: &[Effect]) -> u64 {
    match effects.first() {
        Some(Effect::Sent { port, frame }) => u64::from(*port).wrapping_add(frame.len() as u64),
        _ => 0,
    }
}

/// Times a frame that a switch of these ports receives at port 1 and sends, after these messages.
pub fn time_forward(
    rt: &HostRuntime,
    name: &str,
    ports: u32,
    messages: Result<Vec<u8>, AllocError>,
) -> io::Result<()> {
    let Some(switch) = switch_after(rt.alloc(), ports, messages) else {
        return println!(rt; "{name}: no memory");
    };
    let mut timed = Forward { switch, bytes: TCP };
    if timed.call(0) == 0 {
        return println!(rt; "{name}: no frame leaves");
    }
    time(rt, name, &mut timed)
}

/// Eight flows in table 0, for the TCP ports 73 to 80.
pub fn eight_flows(alloc: Global) -> Result<Vec<u8>, AllocError> {
    let mut messages = Vec::new(alloc);
    for port in 73..81 {
        push_flow(&mut messages, 0, &flows::web_match(port), &flows::OUTPUT)?;
    }
    Ok(messages)
}

/// A frame that the last of eight flows matches, and that is sent out of one port.
pub fn time_frame(rt: &HostRuntime) -> io::Result<()> {
    time_forward(rt, "frame", 2, eight_flows(rt.alloc()))
}

// 4,096 flows over four masks.
fn four_masks(alloc: Global) -> Result<Vec<u8>, AllocError> {
    let mut messages = Vec::new(alloc);
    for value in 0..4096u16 {
        let fields = numbered_fields((value % 4) as u8, value);
        push_flow(&mut messages, 0, &fields, &flows::OUTPUT)?;
    }
    Ok(messages)
}

/// A frame that one of 4,096 flows over four masks matches, and that is sent out of one port. All have one priority, so all masks are asked.
pub fn time_frame_full(rt: &HostRuntime) -> io::Result<()> {
    time_forward(rt, "frame_full", 2, four_masks(rt.alloc()))
}

// Four tables of one flow.
fn four_tables(alloc: Global) -> Result<Vec<u8>, AllocError> {
    let (web, moved) = (flows::web_match(80), flows::web_match(8080));
    let mut messages = Vec::new(alloc);
    push_flow(&mut messages, 0, &flows::PORT_MATCH, &flows::SET_ETHERNET)?;
    push_flow(&mut messages, 1, &flows::IPV4_MATCH, &flows::WRITE_OUTPUT)?;
    push_flow(&mut messages, 2, &web, &flows::SET_TRANSPORT)?;
    push_flow(&mut messages, 3, &moved, &flows::WRITE_AGING)?;
    Ok(messages)
}

/// A frame through four tables by GOTO_TABLE: a SET_FIELD in the first and the third, the action set in the second and the fourth.
///
/// The set has SET_FIELD, DEC_NW_TTL and OUTPUT, and the frame is sent out of one port.
pub fn time_pipeline(rt: &HostRuntime) -> io::Result<()> {
    time_forward(rt, "pipeline", 2, four_tables(rt.alloc()))
}
