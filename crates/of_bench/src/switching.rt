//! Switches, and FLOW_MODs and points in time for them.

use crate::clock::{Timed, time};
use crate::lookups::Lookups;
use of_switch::{PortChange, Switch};
use std::alloc::{AllocError, Global};
use std::io;

const HELLO: [u8; 8] = [4, 0, 0, 8, 0, 0, 0, 1];

/// ADD of IN_PORT 0 at priority 10 into table 0, without instructions.
const ADD: [u8; 64] = [
    4, 14, 0, 64, 0, 0, 0, 2, // header
    0, 0, 0, 0, 0, 0, 0, 0, // cookie
    0, 0, 0, 0, 0, 0, 0, 0, // its mask
    0, 0, 0, 0, 0, 0, 0, 10, // table, command, idle and hard timeout, priority
    0xff, 0xff, 0xff, 0xff, 0xff, 0xff, 0xff, 0xff, // buffer, out port
    0xff, 0xff, 0xff, 0xff, 0, 0, 0, 0, // out group, flags, padding
    0, 1, 0, 12, 0x80, 0, 0, 4, 0, 0, 0, 0, 0, 0, 0, 0, // match
];

/// ADD into a table, of IN_PORT 3 and up, with a hard timeout of this many seconds.
pub fn add(table: u8, number: u16, seconds: u16) -> [u8; 64] {
    let mut message = ADD;
    message[24] = table;
    let bytes = seconds.to_be_bytes();
    message[28] = bytes[0];
    message[29] = bytes[1];
    let bytes = number.wrapping_add(3).to_be_bytes();
    message[58] = bytes[0];
    message[59] = bytes[1];
    message
}

/// A port that is added, whose link is up.
fn port(number: u32) -> PortChange {
    PortChange::Add {
        number,
        hw: [2, 0, 0, 0, 0, 1],
        name: [0; 16],
        up: true,
    }
}

/// Receives bytes of the controller, and handles each whole message; `None` where that was refused or out of memory.
pub fn chunk(switch: &mut Switch<Lookups>, bytes: &[u8]) -> Option<u64> {
    switch.feed(bytes).ok()?;
    let mut effects: u64 = 0;
    for _ in 0..=bytes.len() {
        match switch.next().ok()? {
            None => return Some(effects),
            Some(more) => effects = effects.wrapping_add(more.len() as u64),
        }
    }
    Some(effects)
}

// Opens a channel and sends these messages; None where one is answered or memory runs out.
fn prepare(switch: &mut Switch<Lookups>, ports: u32, messages: &[u8]) -> Option<()> {
    for number in 1..=ports {
        switch.port_change(port(number)).ok()?;
    }
    switch.connected().ok()?;
    chunk(switch, &HELLO)?;
    match chunk(switch, messages)? {
        0 => Some(()),
        _ => None,
    }
}

/// A switch of the ports from 1, whose controller said HELLO and sent these messages; `None` where one is answered or memory runs out.
pub fn switch_after(
    alloc: Global,
    ports: u32,
    messages: Result<Vec<u8>, AllocError>,
) -> Option<Switch<Lookups>> {
    let messages = messages.ok()?;
    let mut switch = Switch::<Lookups>::new(alloc, 1).ok()?;
    prepare(&mut switch, ports, &messages)?;
    Some(switch)
}

/// ADDs of `flows` flows into each of `tables` tables, with this hard timeout.
pub fn adds(alloc: Global, tables: u8, flows: u16, seconds: u16) -> Result<Vec<u8>, AllocError> {
    let mut messages = Vec::new(alloc);
    for table in 0..tables {
        for number in 0..flows {
            messages.extend_from_slice(&add(table, number, seconds))?;
        }
    }
    Ok(messages)
}

#[derive(Drop)]
struct FlowMod {
    switch: Switch<Lookups>,
}

impl Timed for FlowMod {
    fn call(&mut self, turn: u64) -> u64 {
        chunk(&mut self.switch, &add(0, (turn % 4) as u16, 0)).unwrap_or(0)
    }
}

fn time_flow_mod_of(rt: &HostRuntime, name: &str, flows: u16) -> io::Result<()> {
    match switch_after(rt.alloc(), 2, adds(rt.alloc(), 1, flows, 0)) {
        Some(switch) => time(rt, name, &mut FlowMod { switch }),
        None => println!(rt; "{name}: no memory"),
    }
}

/// An ADD that replaces one of four entries, in a table of no other, of 100 and of 4,000 entries.
pub fn time_flow_mod(rt: &HostRuntime) -> io::Result<()> {
    time_flow_mod_of(rt, "flow_mod, 0 others", 0)?;
    time_flow_mod_of(rt, "flow_mod, 100", 100)?;
    time_flow_mod_of(rt, "flow_mod, 4000", 4000)
}

#[derive(Drop)]
struct Moment {
    switch: Switch<Lookups>,
}

impl Timed for Moment {
    fn call(&mut self, turn: u64) -> u64 {
        match self.switch.moment(turn) {
            Ok(effects) => effects.len() as u64,
            Err(_) => 1,
        }
    }
}

/// A moment at which no entry expires, of 16 tables of 4,096 entries with a hard timeout.
pub fn time_moment(rt: &HostRuntime) -> io::Result<()> {
    match switch_after(rt.alloc(), 2, adds(rt.alloc(), 16, 4096, 0xffff)) {
        Some(switch) => time(rt, "moment", &mut Moment { switch }),
        None => println!(rt; "moment: no memory"),
    }
}
