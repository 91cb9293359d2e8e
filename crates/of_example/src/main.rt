//! A switch in a program of one's own: a controller adds a flow, and a frame takes it.
#![tactic(auto)]

use openflow_switch::{Bytes, Effect, Event, OpenFlowSwitch, PortChange, Report, SwitchError};
use std::alloc::{AllocError, Global};
use std::process::ExitCode;

/// The controller's HELLO, and its FLOW_MOD: what is received at port 1 leaves by port 2.
const MESSAGES: &str = "0400000800000001\
040e00580000000200000000000000000000000000000000000000000000000affffffffffffffffffffffff\
000000000001000c800000040000000100000000000400180000000000000010000000020000000000000000";

const FRAME: &str = "02000000000202000000000188b5";

fn port(number: u8) -> Event {
    Event::Ports(PortChange::Add {
        number: u32::from(number),
        hw: [2, 0, 0, 0, 0, number],
        name: [0; 16],
        up: true,
    })
}

fn bytes(alloc: Global, digits: &str) -> Result<Bytes, AllocError> {
    match hex::decode(alloc, digits) {
        Ok(bytes) => Ok(Bytes::new(bytes)),
        Err(_) => Bytes::from_slice(alloc, &[]),
    }
}

fn played(alloc: Global) -> Result<Vec<Report>, SwitchError> {
    let chunk = Event::Chunk(bytes(alloc, MESSAGES)?);
    let (port_number, frame) = (1, bytes(alloc, FRAME)?);
    let frame = Event::Frame {
        port: port_number,
        frame,
    };
    let events = [port(1), port(2), Event::Connect, chunk, frame];
    let mut switch = OpenFlowSwitch::new(alloc, 1)?;
    let mut reports = Vec::new(alloc);
    switch.run(&events, &mut reports)?;
    Ok(reports)
}

fn say(rt: &HostRuntime, effect: &Effect) {
    match effect {
        Effect::Answer(message) => {
            let size = message.as_slice().len();
            let _ = println!(rt; "to the controller: {size} bytes");
        }
        Effect::Sent { port, frame } => {
            let size = frame.as_slice().len();
            let _ = println!(rt; "out by port {port}: {size} bytes");
        }
        Effect::Closed => {
            let _ = println!(rt; "the connection ends");
        }
    }
}

fn main(rt: HostRuntime) -> ExitCode {
    let Ok(reports) = played(rt.alloc()) else {
        let _ = eprintln!(rt; "out of memory");
        return ExitCode::FAILURE;
    };
    for report in &reports {
        if let Report::Gives(effects) = report {
            for effect in effects.iter() {
                say(&rt, effect);
            }
        }
    }
    ExitCode::SUCCESS
}
