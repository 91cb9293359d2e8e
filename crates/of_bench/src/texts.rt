//! Flow text.

use crate::clock::{Timed, time_slow};
use of_text::{Config, assemble, disassemble};
use std::alloc::{AllocError, Global};
use std::io;

/// How many flows the text has.
const FLOWS: u16 = 4096;

// A text of flows of table 0, with a match and an action each.
fn text_of_flows(alloc: Global) -> Result<Vec<u8>, AllocError> {
    let mut text = Vec::new(alloc);
    for number in 0..FLOWS {
        let line = format!(in alloc;
            "flow 0 {number} 0x0000000000000000 0 0 0\nmatch in_port 0x00000001\napply\noutput 2 0\n"
        )?;
        text.extend_from_slice(line.as_bytes())?;
    }
    Ok(text)
}

#[derive(Drop)]
struct Assemble {
    alloc: Global,
    text: Vec<u8>,
}

impl Timed for Assemble {
    fn call(&mut self, turn: u64) -> u64 {
        match assemble(self.alloc, &self.text) {
            Ok(config) => config.flows(0).len() as u64,
            Err(_) => turn,
        }
    }
}

/// The configuration of a text of 4,096 flows.
pub fn time_assemble(rt: &HostRuntime) -> io::Result<()> {
    let alloc = rt.alloc();
    let Ok(text) = text_of_flows(alloc) else {
        return println!(rt; "assemble: no memory");
    };
    println!(rt; "assemble: {} bytes", text.len())?;
    time_slow(rt, "assemble", &mut Assemble { alloc, text })
}

#[derive(Drop)]
struct Disassemble {
    alloc: Global,
    config: Config,
}

impl Timed for Disassemble {
    fn call(&mut self, turn: u64) -> u64 {
        match disassemble(self.alloc, &self.config) {
            Ok(text) => text.len() as u64,
            Err(_) => turn,
        }
    }
}

/// The text of that configuration.
pub fn time_disassemble(rt: &HostRuntime) -> io::Result<()> {
    let alloc = rt.alloc();
    let Ok(text) = text_of_flows(alloc) else {
        return println!(rt; "disassemble: no memory");
    };
    let Ok(config) = assemble(alloc, &text) else {
        return println!(rt; "disassemble: no memory");
    };
    println!(rt; "disassemble: {} bytes", text.len())?;
    time_slow(rt, "disassemble", &mut Disassemble { alloc, config })
}
